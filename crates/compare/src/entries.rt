// What a line holds behind its name: numbers, read and written in the same order.
use super::reader::{Lines, ReadError};
use std::io::{self, BufRead, Write};

pub trait Entry: Sized + Drop {
    fn parse<R: BufRead>(lines: &mut Lines<R>) -> Result<Self, ReadError>;

    // Each number behind a space.
    fn write<W: Write>(&self, out: &mut W) -> io::Result<()>;
}

// Writes a line.
pub fn put<W: Write, T: Entry>(out: &mut W, name: &str, entry: &T) -> io::Result<()> {
    out.write_all(name.as_bytes())?;
    entry.write(out)?;
    out.write_all(b"\n")
}

impl Entry for u64 {
    fn parse<R: BufRead>(lines: &mut Lines<R>) -> Result<Self, ReadError> {
        lines.number()
    }

    fn write<W: Write>(&self, out: &mut W) -> io::Result<()> {
        write!(out, " {self}")
    }
}

impl Entry for i64 {
    fn parse<R: BufRead>(lines: &mut Lines<R>) -> Result<Self, ReadError> {
        lines.signed()
    }

    fn write<W: Write>(&self, out: &mut W) -> io::Result<()> {
        write!(out, " {self}")
    }
}

// A yes is 1, a no 0.
impl Entry for bool {
    fn parse<R: BufRead>(lines: &mut Lines<R>) -> Result<Self, ReadError> {
        match lines.number()? {
            0 => Ok(false),
            1 => Ok(true),
            _ => Err(lines.bad()),
        }
    }

    fn write<W: Write>(&self, out: &mut W) -> io::Result<()> {
        u64::from(*self).write(out)
    }
}

impl<const N: usize> Entry for [u64; N] {
    fn parse<R: BufRead>(lines: &mut Lines<R>) -> Result<Self, ReadError> {
        let mut numbers = [0; N];
        for number in numbers.iter_mut() {
            *number = lines.number()?;
        }
        Ok(numbers)
    }

    fn write<W: Write>(&self, out: &mut W) -> io::Result<()> {
        for number in self {
            number.write(out)?;
        }
        Ok(())
    }
}

// An entry that may be missing. It has as many numbers as its width.
pub trait Optional: Entry {
    const WIDTH: usize;
}

impl Optional for u64 {
    const WIDTH: usize = 1;
}

impl<const N: usize> Optional for [u64; N] {
    const WIDTH: usize = N;
}

// 1 and what there is, or 0 and as many zeros.
impl<T: Optional> Entry for Option<T> {
    fn parse<R: BufRead>(lines: &mut Lines<R>) -> Result<Self, ReadError> {
        if lines.take()? {
            return Ok(Some(lines.take()?));
        }
        lines.unused(T::WIDTH)?;
        Ok(None)
    }

    fn write<W: Write>(&self, out: &mut W) -> io::Result<()> {
        self.is_some().write(out)?;
        match self {
            Some(entry) => entry.write(out),
            None => write_unused(out, T::WIDTH),
        }
    }
}

// Fields that are not used are 0.
pub fn write_unused<W: Write>(out: &mut W, count: usize) -> io::Result<()> {
    for _ in 0..count {
        out.write_all(b" 0")?;
    }
    Ok(())
}
