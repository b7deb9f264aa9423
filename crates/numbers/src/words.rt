// Operations on numbers of 64 bits, named as the Rust names them.
// Beside std's methods of these names, which say by cases when they answer: here the answer is one equation, as the rules have it, so that a halt needs no case of its own above.
ghost use Rattle.std.specs.Prelude.{◌≡◌, ◌+◌, ◌*◌, ◌%◌, ◌^◌};
ghost use Rattle.numbers.specs.Words.{fitting};

#[tactic(auto, using(crate::proofs::Fitting::fitted))]
pub fn checked_add(a: u64, b: u64) -> Option<u64>
    ensures { result ≡ fitting (a + b) }
{
    a.checked_add(b)
}

#[tactic(auto, using(crate::proofs::Fitting::fitted))]
pub fn checked_mul(a: u64, b: u64) -> Option<u64>
    ensures { result ≡ fitting (a * b) }
{
    a.checked_mul(b)
}

// The low word of a product: the partial products of 32-bit halves, added with wrapping. By hand, as a rule of the project has it: this is the product of the generator.
pub fn wrapping_mul(a: u64, b: u64) -> u64
    ensures { result ≡ a * b % 2 ^ 64 }
{
    let a0 = a % 0x1_0000_0000;
    let a1 = a / 0x1_0000_0000;
    let b0 = b % 0x1_0000_0000;
    let b1 = b / 0x1_0000_0000;
    let cross = (a1 * b0).wrapping_add(a0 * b1) % 0x1_0000_0000;
    (a0 * b0).wrapping_add(cross * 0x1_0000_0000)
}
