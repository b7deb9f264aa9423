// The lines that `replay` prints: those of a call, with `cut`, the last line, `bad` and `retired`.
#![tactic(auto)]

ghost use Rattle.std.specs.Prelude.{◌≡◌, ◌+◌, ◌-◌, ◌/◌, ◌^◌, min, fold, length, map, take};
ghost use Rattle.std.specs.Simd.{first_chunks};
ghost use Rattle.write.specs.Write.{written};
ghost use Rattle.lines.specs.Print.{records_of, call_text, last_line, numbered, bad_line, retired_line, filled_lots, filled_after};

use logline::{Record, WORDS, put_event};
use numbers::position::Position;
use write::Writer;

// The numbers of the log for a report, and for its kinds partial and fill: a log holds words.
const REPORT: u64 = 1;

const PARTIAL: u64 = 4;

const FILL: u64 = 5;

// The lots of a report of kind partial or fill, its `last`; 0 of any other record.
#[tactic(auto, unfolding(numbers::specs::Choice::pick, crate::specs::Print::filled_lots))]
fn filled_lots(words: &Record) -> u64
    ensures { result ≡ filled_lots words.now }
{
    let [event, _, _, _, _, kind, .., last, _] = *words;
    match (event, kind) {
        (REPORT, PARTIAL | FILL) => last,
        _ => 0,
    }
}

// The sum stays at the largest number, which a run does not reach: an order's fills are within its quantity, and all quantities together within 64 bits.
fn with_lots(sum: u64, records: &[Record]) -> u64
    ensures { result ≡ fold (λ s lots. min (s + lots) (2 ^ 64 - 1)) sum (map filled_lots records.now) }
{
    records
        .iter()
        .map(filled_lots)
        .fold(sum, u64::saturating_add)
}

// The records that are printed of one call. `batch` has the same number for the room that a call must have, since what prints stands on nothing of the kernel.
const PRINTED_RECORDS: u64 = 512;

// What several calls raised: the log that has it, how many events it is, and how many of them the last call raised.
#[derive(Clone, Copy)]
pub struct Raised<'a> {
    pub log: &'a [u64],
    pub events: u64,
    pub last: u64,
}

impl<'a> Raised<'a> {
    // The records of the log that are printed: of the last call no more than a call's.
    fn records(&self) -> &'a [Record]
        ensures { result.now ≡ take (records_of self.now.log.now self.now.events self.now.last) (first_chunks WORDS (length self.now.log.now / WORDS) self.now.log.now) }
    {
        let (records, _) = self.log.as_chunks();
        let unprinted = self.last.saturating_sub(PRINTED_RECORDS);
        let shown = self.events.saturating_sub(unprinted) as usize;
        &records[..shown.min(records.len())]
    }

    // What calls print: the line of each record, and `cut` where the last raised more than is printed of it.
    pub fn put_lines(&self, text: &mut Writer)
        ensures { text.new ≡ written text.old (call_text self.now.log.now self.now.events self.now.last) }
    {
        let records = self.records();
        for words in records {
            put_event(text, words);
        }
        if (records.len() as u64) < self.events {
            text.put_bytes(b"cut\n");
        }
    }

    // The lots filled so far, with those of the printed reports.
    pub fn add_filled(&self, sum: u64) -> u64
        ensures { result ≡ filled_after sum self.now.log.now self.now.events self.now.last }
    {
        with_lots(sum, self.records())
    }
}

// position P live B S filled F: numbers one by one, since what prints stands on nothing of the kernel.
#[tactic(auto, using(logline::proofs::LineLaws::pieces), unfolding(crate::specs::Print::last_line, write::specs::Write::texted))]
pub fn put_last(text: &mut Writer, position: Position, buy: u64, sell: u64, filled: u64)
    ensures { text.new ≡ written text.old (last_line position.lots buy sell filled) }
{
    text.put_bytes(b"position ");
    text.put_signed(position.lots);
    text.put_bytes(b" live");
    text.put_field(buy);
    text.put_field(sell);
    text.put_bytes(b" filled");
    text.put_field(filled);
    text.put_byte(b'\n');
}

// A word and the number of a line.
#[tactic(auto, using(logline::proofs::LineLaws::pieces))]
fn put_numbered(text: &mut Writer, name: &[u8], n: u64)
    ensures { text.new ≡ written text.old (numbered name.now n) }
{
    text.put_bytes(name);
    text.put_field(n);
    text.put_byte(b'\n');
}

// bad N
#[tactic(auto, unfolding(crate::specs::Print::bad_line))]
pub fn put_bad(text: &mut Writer, n: u64)
    ensures { text.new ≡ written text.old (bad_line n) }
{
    put_numbered(text, b"bad", n);
}

// retired N
#[tactic(auto, unfolding(crate::specs::Print::retired_line))]
pub fn put_retired(text: &mut Writer, n: u64)
    ensures { text.new ≡ written text.old (retired_line n) }
{
    put_numbered(text, b"retired", n);
}
