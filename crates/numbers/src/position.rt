// A position: a signed 64-bit count of lots, which a buy raises and a sell lowers.
ghost use Rattle.std.specs.Prelude.{◌≡◌};
ghost use Rattle.numbers.specs.Position.{raised_by, lowered_by};

#[derive(Clone, Copy, PartialEq, Eq, Default)]
pub struct Position {
    pub lots: i64,
}

impl Position {
    // A buy: the checked sum.
    pub fn checked_add(self, lots: u64) -> Option<Position>
        ensures { result ≡ raised_by self lots }
    {
        let bought = i64::try_from(lots).ok()?;
        let lots = self.lots.checked_add(bought)?;
        Some(Position { lots })
    }

    // A sell: the checked difference.
    pub fn checked_sub(self, lots: u64) -> Option<Position>
        ensures { result ≡ lowered_by self lots }
    {
        let sold = i64::try_from(lots).ok()?;
        let lots = self.lots.checked_sub(sold)?;
        Some(Position { lots })
    }
}
