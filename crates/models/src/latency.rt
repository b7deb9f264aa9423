// The delay of reports and observations.
ghost use Rattle.std.specs.Prelude.{◌≡◌};
ghost use Rattle.rules.specs.Report.{delay, delay_ns, delayed_time, under_ceiling};

use super::rng::KernelRng;
use book::config::Config;
use numbers::words::{checked_add, checked_mul};

// (base + jitter) * quantum, or none where the sum or the product passes 64 bits.
#[tactic(auto, unfolding(rules::specs::Report::delay_ns, numbers::specs::Choice::on_some))]
fn delay_ns(base_q: u64, jitter: u64, quantum_ns: u64) -> Option<u64>
    ensures { result ≡ delay_ns base_q jitter quantum_ns }
{
    let quanta = checked_add(base_q, jitter)?;
    checked_mul(quanta, quantum_ns)
}

// No delay is longer than a ceiling above 0, and one past 64 bits is as long.
#[tactic(auto, unfolding(rules::specs::Report::under_ceiling, numbers::specs::Choice::pick, numbers::specs::Choice::on_some))]
fn under_ceiling(ceiling_ns: u64, delay: Option<u64>) -> Option<u64>
    ensures { result ≡ under_ceiling ceiling_ns delay }
{
    if ceiling_ns == 0 {
        return delay;
    }
    match delay {
        Some(ns) => Some(ns.min(ceiling_ns)),
        None => Some(ceiling_ns),
    }
}

// The time that is a delay after `at`, or none where there is no delay or the time passes 64 bits.
#[tactic(auto, unfolding(rules::specs::Report::delayed_time, numbers::specs::Choice::on_some))]
fn delayed_time(cfg: &Config, at: u64, base_q: u64, jitter: u64) -> Option<u64>
    ensures { result ≡ delayed_time cfg.now at base_q jitter }
{
    let delay = delay_ns(base_q, jitter, cfg.quantum_ns);
    let ns = under_ceiling(cfg.ceiling_ns, delay)?;
    checked_add(at, ns)
}

// The jitter is drawn first: the generator has moved also where there is no time.
#[tactic(auto, unfolding(rules::specs::Report::delay))]
pub fn delayed(cfg: &Config, rng: &mut u64, at: u64, base_q: u64) -> Option<u64>
    ensures { record { rng = rng.new; time = result } ≡ delay cfg.now rng.old at base_q }
{
    let drawn = KernelRng { state: *rng }.draw(cfg.jitter_q);
    *rng = drawn.rng.state;
    delayed_time(cfg, at, base_q, drawn.value)
}
