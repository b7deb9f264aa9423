// Products and floors of 128 bits: the queue rule is exact past 64 bits by them.
#![tactic(auto)]

ghost use Rattle.std.specs.Prelude.{◌≡◌, ◌*◌, ◌/◌};

// Beside `u128`'s own `*`: its value is one equation, so that the proof of the queue rule has no wrap in it.
pub fn product(a: u64, b: u64) -> u128
    ensures { result ≡ a * b }
{
    u128::from(a) * u128::from(b)
}

// The floor of a number by a word. By 0 it is 0, as it is in the logic.
// A number of 64 bits, as most are, is divided as one: to divide 128 bits takes a call.
pub fn floor(n: u128, per: u64) -> u128
    ensures { result ≡ n / per }
{
    if per == 0 {
        return 0;
    }
    match u64::try_from(n) {
        Ok(word) => u128::from(word / per),
        Err(_) => n / u128::from(per),
    }
}
