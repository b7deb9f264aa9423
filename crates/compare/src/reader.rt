// The reader: the text byte by byte, from the block that stands ready. A line is not gathered first, so that a line of any length takes no memory, and nothing is waited for behind a bad byte.
use super::entries::Entry;
use std::alloc::{AllocError, AllocFailed};
use std::io::{self, BufRead};

// Why a text is read no further: the line of this number is not as it should be, or there is no memory for it. What is printed of it is that number.
#[derive(Debug, Drop)]
pub enum ReadError {
    BadLine(u64),
    Io(io::Error),
}

impl From<io::Error> for ReadError {
    fn from(error: io::Error) -> Self {
        ReadError::Io(error)
    }
}

impl From<AllocError> for ReadError {
    fn from(error: AllocError) -> Self {
        ReadError::Io(io::Error::from(error))
    }
}

impl<T: Drop> From<AllocFailed<T>> for ReadError {
    fn from(failed: AllocFailed<T>) -> Self {
        ReadError::from(AllocError::from(failed))
    }
}

// Lines, each a name and behind it fields, each behind one space. The text, whether its end was seen, behind which it is not read again, and the number of the line in which it stands.
#[derive(Drop)]
pub struct Lines<R> {
    from: R,
    ended: bool,
    number: u64,
}

impl<R: BufRead> Lines<R> {
    pub fn new(from: R) -> Self {
        Lines {
            from,
            ended: false,
            number: 1,
        }
    }

    // The error at the line in which the text stands.
    pub fn bad(&self) -> ReadError {
        ReadError::BadLine(self.number)
    }

    // The next byte, or none at the end of the text. A text that cannot be read ends there.
    pub fn peek(&mut self) -> Option<u8> {
        if self.ended {
            return None;
        }
        let next = match self.from.fill_buf() {
            Ok(block) => block.first().copied(),
            Err(_) => None,
        };
        self.ended = next.is_none();
        next
    }

    // Past the byte that was seen.
    pub fn step(&mut self) {
        self.from.consume(1);
    }

    // The byte that has to come.
    fn expect(&mut self, byte: u8) -> Result<(), ReadError> {
        if self.peek() != Some(byte) {
            return Err(self.bad());
        }
        self.step();
        Ok(())
    }

    // The name that has to come.
    pub fn name(&mut self, name: &str) -> Result<(), ReadError> {
        for byte in name.as_bytes() {
            self.expect(*byte)?;
        }
        Ok(())
    }

    // The line has no more fields.
    pub fn end(&mut self) -> Result<(), ReadError> {
        self.expect(b'\n')?;
        self.number = self.number.wrapping_add(1);
        Ok(())
    }

    // The next line: a name, and all that stands behind it.
    pub fn entry<T: Entry>(&mut self, name: &str) -> Result<T, ReadError> {
        self.name(name)?;
        let entry = self.take()?;
        self.end()?;
        Ok(entry)
    }

    pub fn take<T: Entry>(&mut self) -> Result<T, ReadError> {
        T::parse(self)
    }

    // The next byte as a digit, if it is one.
    fn digit(&mut self) -> Option<u64> {
        let digit = char::from(self.peek()?).to_digit(10)?;
        Some(u64::from(digit))
    }

    // A number's digits: one or more, and at most 64 bits of value. A proved loop has to end, so the digits are counted, to a number that no text reaches.
    fn digits(&mut self) -> Result<u64, ReadError> {
        let mut value = self.digit().ok_or(self.bad())?;
        self.step();
        for _ in 0..u64::MAX {
            let Some(digit) = self.digit() else {
                break;
            };
            value = value
                .checked_mul(10)
                .and_then(|tens| tens.checked_add(digit))
                .ok_or(self.bad())?;
            self.step();
        }
        Ok(value)
    }

    // A field: a number in decimal.
    pub fn number(&mut self) -> Result<u64, ReadError> {
        self.expect(b' ')?;
        self.digits()
    }

    // A field: a number that may have a minus sign.
    pub fn signed(&mut self) -> Result<i64, ReadError> {
        self.expect(b' ')?;
        let number = if self.peek() == Some(b'-') {
            self.step();
            0i64.checked_sub_unsigned(self.digits()?)
        } else {
            0i64.checked_add_unsigned(self.digits()?)
        };
        number.ok_or(self.bad())
    }

    // Fields that are not used are 0.
    pub fn unused(&mut self, count: usize) -> Result<(), ReadError> {
        for _ in 0..count {
            if self.number()? != 0 {
                return Err(self.bad());
            }
        }
        Ok(())
    }
}
