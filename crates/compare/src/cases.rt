// A case: a name, what is given to its calls, a state and the calls.
use super::entries::Entry;
use super::reader::{Lines, ReadError};
use super::states::read_state;
use book::config::{Config, FillMode, ROW_WORDS};
use state::KernelState;
use std::alloc::Global;
use std::io::{self, BufRead, Write};

// A case has this much room. The first line that has more is bad.
const MOST_NAME: usize = 255;

const MOST_ROW_WORDS: usize = 16384;

const MOST_CALLS: usize = 4096;

// By its number in the case text, as the enums of `records`.
#[derive(Clone, Copy)]
pub enum Call {
    Advance,
    Pass,
    // both by turns until Terminal or a refusal
    Turns,
}

impl Entry for Call {
    fn parse<R: BufRead>(lines: &mut Lines<R>) -> Result<Self, ReadError> {
        match lines.number()? {
            0 => Ok(Call::Advance),
            1 => Ok(Call::Pass),
            2 => Ok(Call::Turns),
            _ => Err(lines.bad()),
        }
    }

    fn write<W: Write>(&self, out: &mut W) -> io::Result<()> {
        let number: u64 = match self {
            Call::Advance => 0,
            Call::Pass => 1,
            Call::Turns => 2,
        };
        number.write(out)
    }
}

#[derive(Drop)]
pub struct Case {
    pub name: Vec<u8>,
    pub config: Config,
    // the log's length; none: long enough
    pub log_words: Option<u64>,
    pub rows: Vec<u64>,
    pub state: KernelState,
    pub calls: Vec<Call>,
}

// A name is not empty and has no space. It may be any bytes else.
fn read_name<R: BufRead>(lines: &mut Lines<R>, alloc: Global) -> Result<Vec<u8>, ReadError> {
    lines.name("case ")?;
    let mut name = Vec::new(alloc);
    for _ in 0..MOST_NAME {
        match lines.peek() {
            None | Some(b' ') => return Err(lines.bad()),
            Some(b'\n') => break,
            Some(byte) => name.push(byte)?,
        }
        lines.step();
    }
    if name.is_empty() {
        return Err(lines.bad());
    }
    lines.end()?;
    Ok(name)
}

// The mode and the three numbers of the queue's, or zeros.
fn read_fill<R: BufRead>(lines: &mut Lines<R>) -> Result<FillMode, ReadError> {
    let queue: Option<[u64; 3]> = lines.entry("fill")?;
    let Some(numbers) = queue else {
        return Ok(FillMode::Immediate);
    };
    let [rate_lots, per_ms, min_queue_ms] = numbers;
    Ok(FillMode::QueuePosition {
        rate_lots,
        per_ms,
        min_queue_ms,
    })
}

fn read_config<R: BufRead>(lines: &mut Lines<R>) -> Result<Config, ReadError> {
    Ok(Config {
        quantum_ns: lines.entry("quantum")?,
        observation_q: lines.entry("observation")?,
        ack_q: lines.entry("ack")?,
        jitter_q: lines.entry("jitter")?,
        ceiling_ns: lines.entry("ceiling")?,
        s_max: lines.entry("smax")?,
        fill: read_fill(lines)?,
    })
}

// The last row may have fewer words.
fn read_rows<R: BufRead>(lines: &mut Lines<R>, alloc: Global) -> Result<Vec<u64>, ReadError> {
    let words: u64 = lines.entry("rows")?;
    let mut rows = Vec::new(alloc);
    for at in (0..words).step_by(ROW_WORDS) {
        let count = (words - at).min(ROW_WORDS as u64) as usize;
        if rows.len().saturating_add(count) > MOST_ROW_WORDS {
            return Err(lines.bad());
        }
        lines.name("row")?;
        for _ in 0..count {
            rows.push(lines.number()?)?;
        }
        lines.end()?;
    }
    Ok(rows)
}

fn read_calls<R: BufRead>(lines: &mut Lines<R>, alloc: Global) -> Result<Vec<Call>, ReadError> {
    let count: u64 = lines.entry("calls")?;
    let mut calls = Vec::new(alloc);
    for _ in 0..count {
        if calls.len() == MOST_CALLS {
            return Err(lines.bad());
        }
        calls.push(lines.entry("call")?)?;
    }
    Ok(calls)
}

// The next case, or none at the end of the text.
pub fn read_case<R: BufRead>(
    lines: &mut Lines<R>,
    alloc: Global,
) -> Result<Option<Case>, ReadError> {
    if lines.peek().is_none() {
        return Ok(None);
    }
    let case = Case {
        name: read_name(lines, alloc)?,
        config: read_config(lines)?,
        log_words: lines.entry("log")?,
        rows: read_rows(lines, alloc)?,
        state: read_state(lines)?,
        calls: read_calls(lines, alloc)?,
    };
    lines.name("end")?;
    lines.end()?;
    Ok(Some(case))
}
