// What is tested when a call begins, and a pass (step.rs of the Rust).
#![tactic(auto)]

ghost use Rattle.std.specs.Prelude.{[], ◌≡◌};
ghost use Rattle.rules.specs.Calls.{pass, returned, counts_fit, entry_refusal, is_paused, can_resume};
ghost use Rattle.entry.specs.Entry.{answer_number, refused_with, passed};

use book::config::{Config, ROW_WORDS};
use numbers::words::checked_add;
use state::{KernelState, Phase, Refusal};

// Whether each list's count is within its capacity.
#[tactic(auto, unfolding(rules::specs::Calls::counts_fit))]
pub fn counts_fit(s: &KernelState) -> bool
    ensures { result ≡ counts_fit s.now }
{
    s.orders.count <= orders::CAPACITY
        && s.msgs.count <= msgs::CAPACITY
        && s.awaiting.count <= orders::CAPACITY
        && s.deliveries.count <= deliveries::CAPACITY
        && s.observed.count <= observed::CAPACITY
        && s.account.count <= account::CAPACITY
}

// Whether a call of `advance` may run: `words` are those of its rows.
#[tactic(auto, unfolding(rules::specs::Calls::entry_refusal, numbers::specs::Choice::pick))]
pub fn may_advance(cfg: &Config, words: usize, s: &KernelState) -> Result<(), Refusal>
    ensures { refused_with result ≡ entry_refusal cfg.now words s.now }
{
    if words % ROW_WORDS != 0 {
        Err(Refusal::RowWords)
    } else if !counts_fit(s) {
        Err(Refusal::ListCount)
    } else if cfg.fill.has_minimum() {
        Err(Refusal::QueueMinimum)
    } else {
        Ok(())
    }
}

// The paper's number of an answer: the refusal's, 0 where the call ran.
pub fn number(answer: Result<(), Refusal>) -> u64
    ensures { result ≡ answer_number answer }
{
    match answer {
        Ok(()) => 0,
        Err(refusal) => u64::from(refusal),
    }
}

fn is_paused(phase: Phase) -> bool
    ensures { result ≡ is_paused phase }
{
    phase == Phase::AwaitDecision
}

fn can_resume(phase: Phase) -> bool
    ensures { result ≡ can_resume phase }
{
    matches!(phase, Phase::BeforeMatch | Phase::ObsQueued)
}

// No action at a pause: one step more, and the run goes on from the phase that the pause saved.
#[tactic(auto, unfolding(rules::specs::Calls::pass, rules::specs::Log::written, numbers::specs::Choice::pick, numbers::specs::Choice::on_some))]
pub fn pass(s: &mut KernelState) -> Result<(), Refusal>
    ensures { passed result s.new ≡ returned [] (pass s.old) }
{
    if !counts_fit(s) {
        return Err(Refusal::ListCount);
    }
    if !is_paused(s.control.phase) {
        return Err(Refusal::NotPaused);
    }
    if !can_resume(s.control.resume) {
        return Err(Refusal::NoResume);
    }
    s.control.step = checked_add(s.control.step, 1).ok_or(Refusal::StepLimit)?;
    s.control.phase = s.control.resume;
    Ok(())
}
