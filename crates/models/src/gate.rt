// The gate: the venue's position and the live lots of each side.
ghost use Rattle.std.specs.Prelude.{◌≡◌};
ghost use Rattle.rules.specs.Messages.{released};
ghost use Rattle.rules.specs.Matching.{moved, gate_filled};

use book::Side;
use numbers::position::Position;
use state::GateState;

// A position after a fill: up for a buy, down for a sell.
#[tactic(auto, unfolding(book::specs::Entries::on_side))]
pub fn move_by(position: Position, side: Side, lots: u64) -> Option<Position>
    ensures { result ≡ moved side position lots }
{
    match side {
        Side::Buy => position.checked_add(lots),
        Side::Sell => position.checked_sub(lots),
    }
}

// Lots of a side are live no more.
#[tactic(auto, using(crate::proofs::Numbers::left_over), unfolding(rules::specs::Messages::released, book::specs::Entries::on_side, numbers::specs::Choice::pick))]
pub fn release(mut gate: GateState, side: Side, lots: u64) -> Option<GateState>
    ensures { result ≡ released side lots gate }
{
    match side {
        Side::Buy => gate.live_buy_lots = gate.live_buy_lots.checked_sub(lots)?,
        Side::Sell => gate.live_sell_lots = gate.live_sell_lots.checked_sub(lots)?,
    }
    Some(gate)
}

// Lots of a side are filled.
#[tactic(auto, unfolding(rules::specs::Matching::gate_filled, numbers::specs::Choice::on_some))]
pub fn fill(gate: GateState, side: Side, lots: u64) -> Option<GateState>
    ensures { result ≡ gate_filled side lots gate }
{
    let venue_pos = move_by(gate.venue_pos, side, lots)?;
    release(GateState { venue_pos, ..gate }, side, lots)
}
