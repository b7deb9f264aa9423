// The calls of a case, and their outcome as text.
use super::cases::{Call, Case};
use super::entries::put;
use super::states::write_state;
use book::config::Config;
use kernel::{advance, pass};
use reports::log::WORDS;
use state::{KernelState, Refusal};
use std::io::{self, Write};

// The room for a log. A log that is longer counts as this one, which no call fills.
pub const LOG_WORDS: usize = 24576;

type Event = [u64; WORDS];

// What calls by turns came to: how many events they raised, and FNV-1a of 64 bits over the words of those that the logs held, each as its eight bytes, the lowest first.
#[derive(Drop)]
struct Total {
    raised: u64,
    sum: u64,
}

impl Total {
    fn new() -> Self {
        Total {
            raised: 0,
            sum: 0xcbf2_9ce4_8422_2325,
        }
    }

    fn add(&mut self, raised: u64, kept: &[Event]) {
        self.raised = self.raised.wrapping_add(raised);
        for event in kept {
            for word in event {
                self.add_word(*word);
            }
        }
    }

    fn add_word(&mut self, word: u64) {
        for byte in word.to_le_bytes() {
            self.sum = (self.sum ^ u64::from(byte)).wrapping_mul(0x100_0000_01b3);
        }
    }
}

// What the calls of a case are given, and the state that they go on from.
#[derive(Drop)]
struct Run<'r, 'l> {
    config: Config,
    rows: &'r [u64],
    log: &'l mut [u64],
    state: KernelState,
}

impl Run<'_, '_> {
    // How many events it raises.
    fn advance(&mut self) -> Result<u64, Refusal> {
        let advanced = advance(&self.config, self.rows, self.state, self.log);
        self.state = advanced.state;
        advanced.answer?;
        Ok(advanced.events)
    }

    fn pass(&mut self) -> Result<(), Refusal> {
        let passed = pass(self.state);
        self.state = passed.state;
        passed.answer
    }

    // The events that the log holds whole, of those raised.
    fn kept(&self, raised: u64) -> &[Event] {
        let (events, _) = self.log.as_chunks::<WORDS>();
        let count = events.len().min(raised as usize);
        &events[..count]
    }

    // Both by turns until Terminal or a refusal. Each `advance` has the whole log, and the sum is over the events that each one's log holds.
    // The turns are counted, to a number that no run reaches.
    fn turns(&mut self, total: &mut Total) -> Result<(), Refusal> {
        for _ in 0..u64::MAX {
            let raised = self.advance()?;
            total.add(raised, self.kept(raised));
            if self.state.control.phase.is_terminal() {
                break;
            }
            self.pass()?;
        }
        Ok(())
    }

    // A call and what it came to.
    fn write_call<W: Write>(&mut self, call: Call, out: &mut W) -> io::Result<()> {
        put(out, "call", &call)?;
        match call {
            Call::Advance => {
                let answer = self.advance();
                self.write_events(answer, out)
            }
            Call::Pass => {
                let answer = self.pass().and(Ok(0));
                self.write_events(answer, out)
            }
            Call::Turns => {
                let mut total = Total::new();
                let answer = self.turns(&mut total);
                write_answer(answer, total.raised, out)?;
                put(out, "sum", &total.sum)
            }
        }
    }

    fn write_events<W: Write>(&self, answer: Result<u64, Refusal>, out: &mut W) -> io::Result<()> {
        let raised = answer.unwrap_or(0);
        let events = self.kept(raised);
        write_answer(answer.and(Ok(())), raised, out)?;
        put(out, "kept", &(events.len() as u64))?;
        for event in events {
            put(out, "event", event)?;
        }
        Ok(())
    }
}

fn write_answer<W: Write>(answer: Result<(), Refusal>, raised: u64, out: &mut W) -> io::Result<()> {
    put(out, "answer", &entry::number(answer))?;
    put(out, "count", &raised)
}

// The outcome of a case: of each call what it came to, and then the state.
pub fn write_outcome<W: Write>(case: &Case, log: &mut [u64], out: &mut W) -> io::Result<()> {
    out.write_all(b"case ")?;
    out.write_all(&case.name)?;
    out.write_all(b"\n")?;
    let words = case
        .log_words
        .map_or(log.len(), |words| log.len().min(words as usize));
    let mut run = Run {
        config: case.config,
        rows: &case.rows,
        log: &mut log[..words],
        state: case.state,
    };
    for call in &case.calls {
        run.write_call(*call, out)?;
        write_state(out, &run.state)?;
    }
    out.write_all(b"end\n")
}
