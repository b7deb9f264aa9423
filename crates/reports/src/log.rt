// The log writer.
ghost use Rattle.std.specs.Prelude.{◌≡◌, ◌+◌, ◌/◌, [], ◌∷◌, leb, length};
ghost use Rattle.rules.specs.Log.{report_words, fill_words, short_words, event_words, written};
ghost use Rattle.reports.specs.Log.{log_of, append_event};

use book::{FillRec, ReportRec};
use state::KernelEvent;

// The words of a record; `logline` has the same number, since what prints stands on nothing of the kernel. A log holds words, so an event is named by its number here.
pub const WORDS: usize = 12;

// The log that a caller lent, and how many events were raised on it.
#[derive(Drop)]
pub struct Log<'a> {
    pub words: &'a mut [u64],
    pub raised: u64,
}

// `kind` is the number with which the log names the event.
fn report_words(kind: u64, r: ReportRec) -> [u64; WORDS]
    ensures { result ≡ report_words kind r }
{
    [
        kind,
        r.ts_ns,
        r.seq,
        r.order_id,
        u64::from(r.side),
        u64::from(r.kind),
        u64::from(r.origin),
        u64::from(r.cancel_pending),
        r.price,
        r.qty,
        r.last,
        r.cum,
    ]
}

fn fill_words(f: FillRec) -> [u64; WORDS]
    ensures { result ≡ fill_words f }
{
    [
        2,
        f.ts_ns,
        f.exec_id,
        f.order_id,
        u64::from(f.side),
        f.price,
        f.qty,
        0,
        0,
        0,
        0,
        0,
    ]
}

fn short_words(kind: u64, a: u64, b: u64) -> [u64; WORDS]
    ensures { result ≡ short_words kind a b }
{
    [kind, a, b, 0, 0, 0, 0, 0, 0, 0, 0, 0]
}

#[tactic(auto, unfolding(rules::specs::Log::event_words))]
fn event_words(e: KernelEvent) -> [u64; WORDS]
    ensures { result ≡ event_words e }
{
    match e {
        KernelEvent::Report(r) => report_words(1, r),
        KernelEvent::Fill(f) => fill_words(f),
        KernelEvent::Delivered(r) => report_words(3, r),
        KernelEvent::Observed { row, at_ns } => short_words(4, row, at_ns),
        KernelEvent::RowEnd { row, ts_ns } => short_words(5, row, ts_ns),
        KernelEvent::EndOfData {
            dropped_msgs,
            dropped_obs,
        } => short_words(6, dropped_msgs, dropped_obs),
        KernelEvent::Halted(reason) => short_words(7, u64::from(reason), 0),
        KernelEvent::DroppedMsg { order_id, cancel } => short_words(8, order_id, u64::from(cancel)),
        KernelEvent::Expired { order_id, at_ns } => short_words(9, order_id, at_ns),
        KernelEvent::DroppedExpiry { order_id } => short_words(10, order_id, 0),
    }
}

// The writer of one event gets the rest of the log, from the first free word on, as a rule of the project has it. An event that does not fit whole is not written.
#[tactic(auto, using(crate::proofs::Append::fits_whole, crate::proofs::Append::no_room))]
fn write_event(rest: &mut [u64], e: KernelEvent)
    ensures { rest.new ≡ written rest.old (e ∷ []) }
{
    if let Some(record) = rest.first_chunk_mut() {
        *record = event_words(e);
    }
}

impl<'a> Log<'a> {
    // Whether it has room for so many records behind those of the events raised so far.
    pub fn has_room(&self, records: usize) -> bool
        ensures { result ≡ leb (self.now.raised + records) (length self.now.words.now / WORDS) }
    {
        let left = (self.words.len() / WORDS).checked_sub(self.raised as usize);
        left.is_some_and(|left| left >= records)
    }

    // The event behind those before it: the part from the next record on is lent to its writer. The count stays at its largest number, which a call never reaches.
    pub fn emit(&mut self, e: KernelEvent)
        ensures { log_of self.new ≡ append_event (log_of self.old) e }
    {
        let raised = self.raised;
        if raised == u64::MAX {
            return;
        }
        self.raised = raised + 1;
        let words = &mut *self.words;
        let nth = raised as usize;
        if nth < words.len() / WORDS {
            let at = nth * WORDS;
            write_event(&mut words[at..], e);
        }
    }
}
