// The run file of `replay` read whole, on a slice: its configuration, its rows and the state at the start. Nothing here opens a file.
#![tactic(auto)]

ghost use Rattle.std.specs.Prelude.{◌≡◌, ◌&&◌, eqb, leb, length};
ghost use Rattle.runtake.specs.Take.{reading_of, Takes, take_text};
ghost use Rattle.runtext.specs.Read.{seeded, start_state, script_of, read_of, lines_read, read_lines, read_text};

use book::config::Config;
use runline::line_of;
use runtake::{BadLine, HEAD_LINES, MOST_WORDS, Reader};
use state::{Control, GateState, KernelState, Phase, Seqs};

// A run file has no more bytes.
pub const MOST_BYTES: usize = 65536;

// What seed 0 becomes.
const DEFAULT_SEED: u64 = 0x9E37_79B9_7F4A_7C15;

// A run: its configuration, its state at the start and how many rows it has. Their words are the caller's again once the file is read, so that they are not in here.
#[derive(Clone, Copy)]
pub struct Script {
    pub cfg: Config,
    pub state: KernelState,
    pub rows: usize,
}

// Why a run file is not run: it is too long, this is the number of its first bad line, from 1, or no line is bad and its fill mode carries a minimum. What is printed of it is `day`'s to say.
#[derive(Clone, Copy, Debug, PartialEq, Eq)]
pub enum Fault {
    TooLong,
    Line(u64),
    Retired,
}

// A run file that is not run, with the run of the lines that were read: of a bad one those above its first bad line.
#[derive(Clone, Copy)]
pub struct Faulty {
    pub fault: Fault,
    pub script: Script,
}

#[tactic(auto, using(std::proofs::lemmas::Bool::Decides::nat_tests), unfolding(crate::specs::Read::seeded, numbers::specs::Choice::pick))]
fn seed_of(seed: u64) -> u64
    ensures { result ≡ seeded seed }
{
    if seed == 0 { DEFAULT_SEED } else { seed }
}

// The state at the start.
#[tactic(auto, unfolding(crate::specs::Read::start_state))]
fn start_state(reader: &Reader) -> KernelState
    ensures { result ≡ start_state (reading_of reader.now) }
{
    let reading = &reader.reading;
    KernelState {
        control: Control {
            phase: Phase::ObsQueued,
            resume: Phase::ObsQueued,
            ..Control::default()
        },
        rng_latency: seed_of(reading.seed),
        seqs: Seqs {
            next_msg_seq: reading.msgs.count as u64,
            ..Seqs::default()
        },
        msgs: reading.msgs,
        gate: GateState {
            live_buy_lots: reading.lots.buy,
            live_sell_lots: reading.lots.sell,
            ..GateState::default()
        },
        account: reading.account,
        ..KernelState::default()
    }
}

impl From<&Reader<'_>> for Script {
    ghost from_gives = { λ reader script. script ≡ script_of (reading_of reader.now) };

    #[tactic(auto, unfolding(crate::specs::Read::script_of))]
    fn from(reader: &Reader) -> Script {
        Script {
            cfg: reader.reading.cfg,
            state: start_state(reader),
            rows: reader.reading.rows,
        }
    }
}

// A line as the text has it, behind n others.
#[tactic(auto, unfolding(runtake::specs::Take::take_text, numbers::specs::Choice::on_some))]
fn take_text(reader: &mut Reader, n: u64, line: &[u8]) -> Result<(), BadLine>
    ensures { Takes result reader.old reader.new (take_text n line.now (reading_of reader.old)) }
{
    reader.take_line(n, line_of(line).ok_or(BadLine)?)
}

// The lines of the text, up to the first bad one. A piece without a newline is a last line that is not ended, which is bad. So is an absent `c` or `f`. Only a text with no bad line is retired for its minimum. The lines are counted, and not numbered by `enumerate`, since behind the loop too it is asked how many there were.
fn read_lines(reader: &mut Reader, text: &[u8]) -> Result<(), Fault>
    ensures reads { lines_read result (reading_of reader.new) ≡ read_lines text.now (reading_of reader.old) }
    ensures lent { reader.new.words.ghost_name ≡ reader.old.words.ghost_name }
{
    if text.len() > MOST_BYTES {
        return Err(Fault::TooLong);
    }
    let mut n = 0;
    for piece in text.split_inclusive(|b| *b == b'\n') {
        let line = piece.strip_suffix(b"\n").ok_or(Fault::Line(n + 1))?;
        take_text(reader, n, line).or(Err(Fault::Line(n + 1)))?;
        n += 1;
    }
    if n < HEAD_LINES {
        return Err(Fault::Line(n + 1));
    }
    if reader.reading.cfg.fill.has_minimum() {
        return Err(Fault::Retired);
    }
    Ok(())
}

// The whole file. The words of its rows go to the front of `words`.
#[tactic(auto, unfolding(crate::specs::Read::read_text))]
pub fn read(text: &[u8], words: &mut [u64; MOST_WORDS]) -> Result<Script, Faulty>
    ensures { read_of result words.new ≡ read_text text.now words.old }
{
    let mut reader = Reader::new(words);
    let outcome = read_lines(&mut reader, text);
    let script = Script::from(&reader);
    match outcome {
        Ok(()) => Ok(script),
        Err(fault) => Err(Faulty { fault, script }),
    }
}
