// Replays run files: those that the arguments name, or `run.txt`. What is printed of them is `lines`' and `day`'s to say; here are only files and loops.
#![tactic(auto)]

ghost use Rattle.std.specs.Prelude.{◌≤◌, length};
ghost use Rattle.std.specs.Io.{ReadsAtMost};

use book::config::{Config, ROW_WORDS};
use day::{LOG_WORDS, Progress, TEXT_BYTES, put_fault};
use lines::put_bad;
use runtext::{MOST_BYTES, read};
use state::KernelState;
use std::env::FillError;
use std::fs::File;
use std::io::Read;
use std::rt::{Env, Files};
use std::{io, str};
use write::Writer;

// One byte more than a run file may have: it tells that a file is too long.
const READ_BYTES: usize = MOST_BYTES + 1;

// Bytes for one line: more than `bad N`, `retired N` or the last line has.
const LINE_BYTES: usize = 4096;

// What `put` writes, which is a line.
fn print_line<F: FnOnce(&mut Writer)>(rt: &impl Print, put: F) -> io::Result<()>
    requires { F.IsAlwaysCallable put }
{
    let mut bytes = [0; LINE_BYTES];
    let mut text = Writer::new(&mut bytes);
    put(&mut text);
    rt.write_all(text.as_slice())
}

// Of a file that is missing.
fn print_missing(rt: &impl Print) -> io::Result<()> {
    print_line(rt, |text| put_bad(text, 0))
}

// A proved loop has to end, so the batches are counted, to more than any run has: each turn but the last pauses at a row's observation, and a run file has at most 512 rows. A run whose lines cannot be written makes no more calls. Not put into the reading of the file: a file that is not run then needs no room for log and lines.
#[inline(never)]
fn run(rt: &impl Print, cfg: &Config, rows: &[u64], start: KernelState) -> io::Result<()> {
    let mut log = [0; LOG_WORDS];
    let mut bytes = [0; TEXT_BYTES];
    let mut progress = Progress {
        state: start,
        filled: 0,
    };
    for _ in 0..u64::MAX {
        let mut text = Writer::new(&mut bytes);
        let more = progress.turns(cfg, rows, &mut log, &mut text);
        if rt.write_all(text.as_slice()).is_err() || !more {
            break;
        }
    }
    print_line(rt, |text| progress.put_end(text))
}

fn replay_text(rt: &impl Print, text: &[u8]) -> io::Result<()> {
    let mut rows = [0; runtake::MOST_WORDS];
    match read(text, &mut rows) {
        Ok(script) => {
            let words = script.rows.saturating_mul(ROW_WORDS).min(rows.len());
            run(rt, &script.cfg, &rows[..words], script.state)
        }
        Err(faulty) => print_line(rt, |text| put_fault(text, faulty.fault)),
    }
}

// Reads until the text is full or the file ends. It gives how many bytes were read. By hand: `read_exact` fails where the file ends, and `read_to_end` reads into a heap, of which this program has none.
fn read_full(file: &mut impl Read, text: &mut [u8]) -> io::Result<usize>
    ensures { ReadsAtMost result text.new }
{
    let mut done = 0;
    while done < text.len() {
        let n = file.read(&mut text[done..])?;
        if n == 0 {
            break;
        }
        done += n;
    }
    Ok(done)
}

fn read_file(rt: &impl Files, path: &str, text: &mut [u8]) -> io::Result<usize>
    ensures { ReadsAtMost result text.new }
{
    let mut file = File::open(rt, path)?;
    read_full(&mut file, text)
}

// A file that cannot be opened or read, as a folder, is missing.
fn replay_file(rt: &(impl Files + Print), path: &str) -> io::Result<()> {
    let mut text = [0; READ_BYTES];
    match read_file(rt, path, &mut text) {
        Ok(n) => replay_text(rt, &text[..n]),
        Err(_) => print_missing(rt),
    }
}

// A name that is not UTF-8 opens no file.
fn replay(rt: &(impl Files + Print), path: &[u8]) -> io::Result<()> {
    match str::from_utf8(path) {
        Ok(name) => replay_file(rt, name),
        Err(_) => print_missing(rt),
    }
}

// An argument that is longer than the text it is read into is there, too. One by one, since std's list of them is on the heap, and has no place for a name that is not UTF-8.
fn has_arg(rt: &impl Env, i: usize) -> bool {
    let mut text = [0; 1];
    !matches!(rt.arg(i, &mut text), Err(FillError::NotPresent))
}

// The arguments, with the program's name.
fn arg_count(rt: &impl Env) -> usize {
    (0..usize::MAX)
        .find(|i| !has_arg(rt, *i))
        .unwrap_or(usize::MAX)
}

// The run file that argument i names, under a heading where it is one of several. A name that is too long opens no file. What cannot be written of a heading is lost, and the file is replayed as any.
fn replay_arg(rt: &(impl Env + Files + Print), i: usize, several: bool) -> io::Result<()> {
    let mut path = [0; 4096];
    let n = rt.arg(i, &mut path).unwrap_or(0);
    if several {
        for part in [b"== ".as_slice(), &path[..n], b"\n"] {
            let _ = rt.write_all(part);
        }
    }
    replay(rt, &path[..n])
}

// What cannot be written is lost, and the next file is replayed as any.
fn main(rt: HostRuntime) {
    let count = arg_count(&rt);
    if count < 2 {
        let _ = replay(&rt, b"run.txt");
    }
    for i in 1..count {
        let _ = replay_arg(&rt, i, count > 2);
    }
}
