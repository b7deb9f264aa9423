// Text written into what the caller lends.
#![tactic(auto)]

ghost use Rattle.std.specs.Prelude.{◌≡◌, [], ◌∷◌, take};
ghost use Rattle.write.specs.Write.{written, decimal, signed};

// Bytes of `out` that are written, `len` of them so far. A byte past its end is not written.
#[derive(Drop)]
pub struct Writer<'a> {
    pub out: &'a mut [u8],
    pub len: usize,
}

impl<'a> Writer<'a> {
    pub fn new(out: &'a mut [u8]) -> Writer<'a>
        ensures { result ≡ record { out = out.entry; len = 0 } }
    {
        Writer { out, len: 0 }
    }

    // What is written so far.
    pub fn as_slice(&self) -> &[u8]
        ensures { result.now ≡ take self.now.len self.now.out.now }
    {
        &self.out[..self.len.min(self.out.len())]
    }

    pub fn put_byte(&mut self, b: u8)
        ensures { self.new ≡ written self.old (b ∷ []) }
    {
        if self.len < self.out.len() {
            self.out[self.len] = b;
            self.len += 1;
        }
    }

    // Those bytes that there is room for. By `copy_from_slice`: a `put_byte` for each takes two fifths more instructions for a whole line.
    pub fn put_bytes(&mut self, s: &[u8])
        ensures { self.new ≡ written self.old s.now }
    {
        if self.len <= self.out.len() {
            let n = s.len().min(self.out.len() - self.len);
            let end = self.len + n;
            self.out[self.len..end].copy_from_slice(&s[..n]);
            self.len = end;
        }
    }

    // A number by its decimal digits, of which 64 bits have at most 20: from the last on, into a row from its end on.
    // By hand: `write!` may answer an error, behind which nothing is known, and here every byte is promised; a crate that prints numbers would be one more to trust.
    pub fn put_number(&mut self, n: u64)
        ensures { self.new ≡ written self.old (decimal n) }
    {
        let mut digits = [0; 20];
        let mut first = 19;
        let mut left = n;
        while left > 9 {
            digits[first] = b'0' + (left % 10) as u8;
            left /= 10;
            first -= 1;
        }
        digits[first] = b'0' + left as u8;
        self.put_bytes(&digits[first..]);
    }

    // A field behind others: a space and the number.
    pub fn put_field(&mut self, n: u64)
        ensures { self.new ≡ written self.old (32 ∷ decimal n) }
    {
        self.put_byte(b' ');
        self.put_number(n);
    }

    pub fn put_signed(&mut self, n: i64)
        ensures { self.new ≡ written self.old (signed n) }
    {
        if n < 0 {
            self.put_byte(b'-');
        }
        self.put_number(n.unsigned_abs());
    }
}
