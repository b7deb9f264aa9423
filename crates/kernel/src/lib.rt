// The kernel's two calls: `advance` and `pass` (step.rs of the Rust). A state goes in by value and comes back, as a rule of the project has it. `advance` is a batch with no pass: `batch::run` makes several calls with the state handed over once.
#![tactic(auto)]

ghost use Rattle.std.specs.Prelude.{[], ◌≡◌};
ghost use Rattle.rules.specs.Calls.{advance, pass, returned};
ghost use Rattle.entry.specs.Entry.{passed};
ghost use Rattle.kernel.specs.Calls.{actual_advance};

use batch::{Advanced, run};
use book::config::Config;
use state::{KernelState, Refusal};

// Runs until the next decision or the end of the run. The rows are words, as a rule of the project has them, and what it takes stands apart, as in `reports`.
pub fn advance(cfg: &Config, rows: &[u64], state: KernelState, log: &mut [u64]) -> Advanced
    ensures { (actual_advance result log.new ≡ returned log.old (advance cfg.now rows.now state)) × (result.last ≡ result.events) }
{
    run(cfg, rows, state, log, 0)
}

// What a pass gives. By a rule of the project the state goes in by value and comes back in every case, refused or not, and so stands beside the answer and not in it.
#[derive(Clone, Copy)]
pub struct Passed {
    pub answer: Result<(), Refusal>,
    pub state: KernelState,
}

// No action at a pause.
pub fn pass(mut state: KernelState) -> Passed
    ensures { passed result.answer result.state ≡ returned [] (pass state) }
{
    let answer = entry::pass(&mut state);
    Passed { answer, state }
}
