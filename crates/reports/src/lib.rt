// How a step of the kernel goes, the log that it writes, and the reports that it sends (step.rs of the Rust).
// A step takes the configuration, the state and the log apart, here and in the crates above, as the Rust's functions do: what is only read has no part in what changes, and of a struct of the three each contract would have to say besides that the configuration stays. The state and the log are two, since the caller keeps the one and lent the other.
#![tactic(auto)]

pub mod log;
pub mod report;

ghost use Rattle.std.specs.Prelude.{◌≡◌};
ghost use Rattle.reports.specs.declared.Stop.TheVariants as stop;

use state::HaltReason;

// Why a step did not run to its end: an observation paused or truncated the run, it halted, or the data ended. What follows it is not done. It is not printed: the call that it ends answers for it.
#[derive(Clone, Copy, Debug, PartialEq, Eq)]
pub enum Stop {
    Left,
    Halt(HaltReason),
    Ended,
}

impl From<HaltReason> for Stop {
    ghost from_gives = { λ reason why. why ≡ stop.Halt reason };

    fn from(reason: HaltReason) -> Stop {
        Stop::Halt(reason)
    }
}
