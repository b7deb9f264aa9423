// Runs generated days through `run` and `pass`: `oracle bench` runs the same days through the published Rust, and what the two print is equal, so that their times are times of the same work.
// Arguments: the day (1 quiet, 2 queue fills, 3 messages, 4 busy; 0, all four), rows, orders, how often each day is run, and how many passes a batch makes (0: each call is a batch). Only the first run of a day is summed.
// It is a tool: its functions are safe and end, and nothing is claimed of what it writes.
#![tactic(auto)]

mod day;

use batch::run;
use book::config::Config;
use day::{Day, Kind};
use kernel::pass;
use reports::log::WORDS;
use state::{KernelState, Phase};
use std::rt::Env;
use std::{io, str};

// The log has room for a call behind 512 records.
const LOG_WORDS: usize = 1024 * WORDS;

// What the batches of a day are given.
#[derive(Drop)]
struct Bench<'r, 'l> {
    cfg: Config,
    rows: &'r [u64],
    log: &'l mut [u64],
    // how many passes a batch makes
    passes: u64,
}

// What runs of a day came to.
#[derive(Clone, Copy)]
struct Total {
    events: u64,
    sum: u64,
    position: i64,
}

// The sum turns left by one bit before each word of the events that the log holds. Not put into the loop of the calls, which is what is timed.
#[inline(never)]
fn add_events(sum: u64, log: &[u64], events: u64) -> u64 {
    let (records, _) = log.as_chunks::<WORDS>();
    records
        .iter()
        .take(events as usize)
        .flatten()
        .fold(sum, |sum, word| sum.rotate_left(1).wrapping_add(*word))
}

impl Bench<'_, '_> {
    // A day from its start to its end, a pass between two batches. The first run alone is summed, so that the others are times of the kernel: a flag, and no closure that would do nothing in them. A proved loop has to end, so the batches are counted, to a number that no day reaches.
    fn play(&mut self, start: KernelState, summed: bool) -> Total {
        let mut state = start;
        let mut events = 0u64;
        let mut sum = 0;
        for _ in 0..u64::MAX {
            let batch = run(&self.cfg, self.rows, state, self.log, self.passes);
            state = batch.state;
            events = events.wrapping_add(batch.events);
            if summed {
                sum = add_events(sum, self.log, batch.events);
            }
            if state.control.phase != Phase::AwaitDecision {
                break;
            }
            state = pass(state).state;
        }
        Total {
            events,
            sum,
            position: state.gate.venue_pos.lots,
        }
    }

    // A day as often as asked: the events of all runs, and what the first one came to.
    fn play_all(&mut self, start: KernelState, repeats: u64) -> Total {
        let mut total = self.play(start, true);
        for _ in 1..repeats {
            let again = self.play(start, false);
            total.events = total.events.wrapping_add(again.events);
        }
        total
    }
}

// Rows and log are made once a day, and are not cleared between its runs.
fn play_day(
    rt: &(impl Print + AllocGlobal),
    day: Day,
    repeats: u64,
    passes: u64,
) -> io::Result<()> {
    let rows = day.rows(rt.alloc())?;
    let mut log = [0u64; LOG_WORDS];
    let mut bench = Bench {
        cfg: day.config(),
        rows: &rows,
        log: &mut log,
        passes,
    };
    let total = bench.play_all(day.start(), repeats);
    let number = u64::from(day.kind);
    println!(rt;
        "day {number} rows {} orders {} position {} events {} sum {}",
        day.rows, day.orders, total.position, total.events, total.sum
    )
}

// A number in decimal. It has no plus sign, which `parse` would take.
fn number_in(text: &str) -> Option<u64> {
    if text.starts_with('+') {
        return None;
    }
    text.parse().ok()
}

// The number of at most nine digits that an argument is, or another where it is none. Read by itself, since std's list of them is refused whole where one is not UTF-8.
fn argument(rt: &impl Env, i: usize, other: u64) -> u64 {
    let mut bytes = [0; 9];
    let length = rt.arg(i, &mut bytes).unwrap_or(0);
    str::from_utf8(&bytes[..length])
        .ok()
        .and_then(number_in)
        .unwrap_or(other)
}

fn main(rt: HostRuntime) -> io::Result<()> {
    let number = argument(&rt, 1, 0);
    let rows = argument(&rt, 2, 64);
    let orders = argument(&rt, 3, 4);
    let repeats = argument(&rt, 4, 1);
    let passes = argument(&rt, 5, 0);
    for kind in Kind::ALL {
        if number == 0 || number == u64::from(kind) {
            play_day(&rt, Day { kind, rows, orders }, repeats, passes)?;
        }
    }
    Ok(())
}
