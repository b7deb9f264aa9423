// A batch of calls (advance of step.rs of the Rust), and the passes between them.
// What a step takes, the rows too, stands apart, as in `reports`. The rows are words, as a rule of the project has them.
#![tactic(auto)]

ghost use Rattle.std.specs.Prelude.{◌≡◌, ◌/◌, length};
ghost use Rattle.state.specs.declared.KernelEvent.TheVariants as event;
ghost use Rattle.rules.specs.Phases.{phases};
ghost use Rattle.rules.specs.Calls.{halted, answer};
ghost use Rattle.rules.specs.Batch.{run, returned_run};
ghost use Rattle.reports.specs.Log.{log_of, append_event};
ghost use Rattle.batch.specs.Batch.{called, told, actual_run};

use book::config::Config;
use entry::{may_advance, pass};
use phases::phases;
use reports::Stop;
use reports::log::Log;
use state::{HaltReason, KernelEvent, KernelState, Refusal, Status};

// Another call is made only where the log has room for so many records more. `lines` has the same number for what is printed of a call, since what prints stands on nothing of the kernel.
const CALL_RECORDS: usize = 512;

// What a batch gives: the answer and the state of its last call, how many events all its calls raised, and how many the last one did. By a rule of the project the state goes in by value and comes back in every case, refused or not, and so stands beside the answer and not in it; the counts too, since a refused batch raised none.
#[derive(Clone, Copy)]
pub struct Advanced {
    pub answer: Result<(), Refusal>,
    pub state: KernelState,
    pub events: u64,
    pub last: u64,
}

// Stops the run: the halt's event stands behind all else.
fn halt(s: &mut KernelState, reason: HaltReason, log: &mut Log)
    ensures state { s.new ≡ halted reason s.old }
    ensures event { log_of log.new ≡ append_event (log_of log.old) (event.Halted reason) }
{
    s.control.end(Status::Halted(reason));
    s.counters.halts = 1;
    log.emit(KernelEvent::Halted(reason));
}

// One call: whether it neither halted nor reached the end of the data. Its halt is done here, so that nothing is left to hand on.
fn call(cfg: &Config, rows: &[u64], s: &mut KernelState, log: &mut Log) -> bool
    ensures { called result s.new (log_of log.new) ≡ told (log_of log.old) (answer (phases cfg.now rows.now s.old)) }
{
    match phases(cfg, rows, s, log) {
        Ok(()) => true,
        Err(Stop::Left) => true,
        Err(Stop::Halt(reason)) => {
            halt(s, reason, log);
            false
        }
        Err(Stop::Ended) => false,
    }
}

// Advances and passes by turns, up to a number of passes, while nothing else is wanted and the log has room for another call's events.
pub fn run(
    cfg: &Config,
    rows: &[u64],
    mut state: KernelState,
    log: &mut [u64],
    passes: u64,
) -> Advanced
    ensures { actual_run result log.new ≡ returned_run log.old (run cfg.now rows.now (length log.old / 12) passes state) }
{
    if let Err(refusal) = may_advance(cfg, rows.len(), &state) {
        return Advanced {
            answer: Err(refusal),
            state,
            events: 0,
            last: 0,
        };
    }
    let mut log = Log {
        words: log,
        raised: 0,
    };
    let mut before = 0;
    let mut stays = call(cfg, rows, &mut state, &mut log);
    for _ in 0..passes {
        if !stays || !log.has_room(CALL_RECORDS) || pass(&mut state).is_err() {
            break;
        }
        before = log.raised;
        stays = call(cfg, rows, &mut state, &mut log);
    }
    Advanced {
        answer: Ok(()),
        state,
        events: log.raised,
        last: log.raised - before,
    }
}
