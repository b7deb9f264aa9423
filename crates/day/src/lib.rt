// A day's run between the reading of its text and the writing of its lines, on slices: nothing here opens a file.
#![tactic(auto)]

ghost use Rattle.std.specs.Prelude.{◌≡◌, length, take};
ghost use Rattle.write.specs.Write.{written};
ghost use Rattle.day.specs.Day.{actual_turns, turned, PrintsTurns};
ghost use Rattle.day.specs.Replay.{last_of, fault_line};

use batch::run;
use book::config::Config;
use kernel::pass;
use lines::{Raised, put_bad, put_last, put_retired};
use reports::log::WORDS;
use runtake::{HEAD_LINES, MOST_ROWS};
use runtext::Fault;
use state::KernelState;
use write::Writer;

// The words of a batch's log. Its 1,023 records have no room for a further call behind 512 events, so that only the last call of a batch can raise more than 512.
pub const LOG_WORDS: usize = 1023 * WORDS;

// Bytes that have room for every line of such a log.
pub const TEXT_BYTES: usize = 131072;

// What is printed of a text that is not run. Its fill mode, which may be retired, is the last of the first lines.
#[tactic(auto, unfolding(crate::specs::Replay::fault_line))]
pub fn put_fault(text: &mut Writer, fault: Fault)
    ensures { text.new ≡ written text.old (fault_line fault) }
{
    match fault {
        Fault::TooLong => put_bad(text, 0),
        Fault::Line(n) => put_bad(text, n),
        Fault::Retired => put_retired(text, HEAD_LINES),
    }
}

// How far a run has come: its state, and the lots filled so far.
#[derive(Clone, Copy)]
pub struct Progress {
    pub state: KernelState,
    pub filled: u64,
}

impl Progress {
    // A batch of calls, the lines of what they raised and, unless that was the end, one `pass`: whether the run goes on. The configuration and the rows are handed on as the kernel takes them.
    pub fn turns(&mut self, cfg: &Config, rows: &[u64], log: &mut [u64], text: &mut Writer) -> bool
        ensures whole_outcome { actual_turns result self.new log.new text.new ≡ turned cfg.now rows.now self.old log.old text.old }
        ensures prints_turns { length log.old ≡ LOG_WORDS → text.old.len ≡ 0 → length text.old.out.now ≡ TEXT_BYTES → PrintsTurns cfg.now rows.now self.old result self.new (take text.new.len text.new.out.now) }
    {
        let a = run(cfg, rows, self.state, log, MOST_ROWS as u64);
        let raised = Raised {
            log,
            events: a.events,
            last: a.last,
        };
        raised.put_lines(text);
        self.filled = raised.add_filled(self.filled);
        if a.state.control.phase.is_terminal() {
            self.state = a.state;
            return false;
        }
        let passed = pass(a.state);
        self.state = passed.state;
        passed.answer.is_ok()
    }

    // The last line of a run.
    pub fn put_end(&self, text: &mut Writer)
        ensures { text.new ≡ written text.old (last_of self.now.state self.now.filled) }
    {
        let gate = &self.state.gate;
        put_last(
            text,
            gate.venue_pos,
            gate.live_buy_lots,
            gate.live_sell_lots,
            self.filled,
        );
    }
}
