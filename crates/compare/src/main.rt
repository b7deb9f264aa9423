// Reads cases on standard input, makes their calls with the kernel, and writes the outcomes on standard output: the case text of docs/COMPARE.md, by which any two implementations of the advance are held side by side.
// It is a tool: its functions are safe and end, and nothing is claimed of what it reads and writes.
#![tactic(auto)]

mod cases;
mod entries;
mod outcomes;
mod reader;
mod records;
mod states;

use cases::read_case;
use outcomes::{LOG_WORDS, write_outcome};
use reader::{Lines, ReadError};
use std::io::{self, BufReader, BufWriter, Write};

// From a bad line on the text is not read. What cannot be written is lost, and the cases behind it are run as any. A proved loop has to end, and nothing says that the text does, so the cases are counted, to a number that no text reaches.
fn run(rt: HostRuntime) -> io::Result<()> {
    let alloc = rt.alloc();
    let mut lines = Lines::new(BufReader::new(alloc, rt.stdin())?);
    let mut out = BufWriter::new(alloc, rt.stdout())?;
    let mut log = vec![in alloc; 0u64; LOG_WORDS]?;
    for _ in 0..u64::MAX {
        match read_case(&mut lines, alloc) {
            Ok(None) => break,
            Ok(Some(case)) => {
                let _ = write_outcome(&case, &mut log, &mut out);
            }
            Err(ReadError::Io(_)) => break,
            Err(ReadError::BadLine(number)) => {
                let _ = writeln!(out, "bad {number}");
                break;
            }
        }
    }
    out.flush()
}

// A case that memory does not hold ends the text.
fn main(rt: HostRuntime) {
    let _ = run(rt);
}
