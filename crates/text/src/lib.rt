// Text as bytes on slices: a text parted at a byte, a line read field by field, and the numbers that fields write.
#![tactic(auto)]

ghost use Rattle.std.specs.Prelude.{◌≡◌, ◌==◌, ◌-◌, [], eqb, length, drop, get_or, slice_get};
ghost use Rattle.std.specs.List.{position};
ghost use Rattle.std.specs.Option.{option_copied};
ghost use Rattle.text.specs.Cursor.{left};
ghost use Rattle.text.specs.Fields.{pieces, parted_once, fields, number};

// A number has no more digits, leading zeros among them.
const MOST_DIGITS: usize = 20;

// The place of the first `stop`: by itself, so that what the closure computes is one equation.
fn place_of(s: &[u8], stop: u8) -> Option<usize>
    ensures { result ≡ position (λ x. x == stop) s.now }
{
    s.iter().position(|b| *b == stop)
}

// What stands before the first `stop` and what stands behind it: none where there is no `stop`. It is `str`'s method of this name, which std does not have of bytes.
fn split_once(s: &[u8], stop: u8) -> Option<(&[u8], &[u8])>
    ensures { pieces result ≡ parted_once stop s.now }
{
    let at = place_of(s, stop)?;
    Some((&s[..at], &s[at + 1..]))
}

// The number that a field writes: 1 to 20 digits, within 64 bits. By hand: by std's `parse` a quiet row of a replay costs 443 instructions more, a quarter of what it costs (docs/BENCHMARKS.md).
pub fn number(field: &[u8]) -> Option<u64>
    ensures { result ≡ number field.now }
{
    if field.is_empty() || field.len() > MOST_DIGITS {
        return None;
    }
    let mut n = 0u64;
    for b in field {
        let digit = char::from(*b).to_digit(10)?;
        n = n.checked_mul(10)?.checked_add(u64::from(digit))?;
    }
    Some(n)
}

// A line read field by field. Over std's `split` each reader of a line would have the type of the closure that finds a space as a parameter, and what it computes in its contract.
#[derive(Drop)]
pub struct Fields<'a> {
    rest: Option<&'a [u8]>,
}

impl<'a> Fields<'a> {
    pub fn new(line: &'a [u8]) -> Fields<'a>
        ensures { left result ≡ fields line.now }
    {
        Fields { rest: Some(line) }
    }

    // The next field, if one is left.
    pub fn next_field(&mut self) -> Option<&'a [u8]>
        ensures field { option_copied result ≡ slice_get (left self.old) 0 }
        ensures rest { left self.new ≡ drop 1 (left self.old) }
    {
        let line = self.rest?;
        match split_once(line, b' ') {
            Some((field, rest)) => {
                self.rest = Some(rest);
                Some(field)
            }
            None => {
                self.rest = None;
                Some(line)
            }
        }
    }

    // The number in the next field, if one is left and writes a number.
    pub fn next_number(&mut self) -> Option<u64>
        ensures number { result ≡ number (get_or (left self.old) 0 []) }
        ensures rest { left self.new ≡ drop 1 (left self.old) }
    {
        number(self.next_field()?)
    }

    // Whether no field is left.
    pub fn is_empty(&self) -> bool
        ensures { result ≡ eqb (length (left self.now)) 0 }
    {
        self.rest.is_none()
    }
}
