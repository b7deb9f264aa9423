// The walk over the three queues, up to a time (run_events of step.rs of the Rust).
// What a step takes stands apart, as in `reports`.
#![tactic(auto)]

ghost use Rattle.std.specs.Prelude.{◌≡◌};
ghost use Rattle.rules.specs.Events.{due_by, next_of, pop_observation, handle, run_events};
ghost use Rattle.reports.specs.Log.{log_of, expected, actual};
ghost use Rattle.walk.specs.Events.{rule_class, rule_next};

use book::config::Config;
use delivery::deliver_next;
use messages::apply_next_msg;
use reports::Stop;
use reports::log::Log;
use state::{KernelEvent, KernelState, Status};

// Event classes, in their order at equal times: chosen before the clock rises, as the rules do, and so apart from what they do.
#[derive(Clone, Copy)]
enum Class {
    Venue,
    Delivery,
    Observation,
}

// An event that is due, and when.
#[derive(Clone, Copy)]
struct Due {
    class: Class,
    at_ns: u64,
}

#[tactic(auto, unfolding(rules::specs::Events::due_by, numbers::specs::Choice::pick))]
fn due_by(limit: u64, class: Class, at_ns: u64) -> Option<Due>
    ensures { rule_next result ≡ due_by limit (rule_class class) at_ns }
{
    (at_ns <= limit).then_some(Due { class, at_ns })
}

// The least time at or below the limit, of the first entries of the three lists; at equal times the first list's. A chain and no array: by an array and its `flatten` a row would cost half as much again. Nested to the right the chain costs least.
fn next_of(limit: u64, s: &KernelState) -> Option<Due>
    ensures { rule_next result ≡ next_of limit s.now }
{
    let msg = s
        .msgs
        .get(0)
        .and_then(|m| due_by(limit, Class::Venue, m.eff_ns));
    let delivery = s
        .deliveries
        .get(0)
        .and_then(|d| due_by(limit, Class::Delivery, d.at_ns));
    let observation = s
        .observed
        .get(0)
        .and_then(|o| due_by(limit, Class::Observation, o.ready_ns));
    msg.into_iter()
        .chain(delivery.into_iter().chain(observation))
        .min_by_key(|due| due.at_ns)
}

// An observation pauses the run. At the last step it is removed unseen, and the run is truncated.
fn pop_observation(cfg: &Config, s: &mut KernelState, log: &mut Log) -> Result<(), Stop>
    ensures { actual result s.new (log_of log.new) ≡ expected (log_of log.old) (pop_observation cfg.now s.old) }
{
    let Some(entry) = s.observed.pop_front().answer else {
        return Ok(());
    };
    if s.control.step >= cfg.s_max {
        s.control.end(Status::Truncated);
        return Err(Stop::Left);
    }
    s.agent.last_obs_row = Some(entry.row);
    log.emit(KernelEvent::Observed {
        row: entry.row,
        at_ns: s.clock.now_ns,
    });
    s.control.pause();
    Err(Stop::Left)
}

// What an event does, the clock at its time.
fn handle(cfg: &Config, class: Class, s: &mut KernelState, log: &mut Log) -> Result<(), Stop>
    ensures { actual result s.new (log_of log.new) ≡ expected (log_of log.old) (handle cfg.now (rule_class class) s.old) }
{
    match class {
        Class::Venue => apply_next_msg(cfg, s, log)?,
        Class::Delivery => deliver_next(s, log)?,
        Class::Observation => pop_observation(cfg, s, log)?,
    }
    Ok(())
}

// Every event up to the limit, the least time first, while each runs to its end. The loop yields its outcome by `break`, as a rule of the project has it.
pub fn run_events(cfg: &Config, limit: u64, s: &mut KernelState, log: &mut Log) -> Result<(), Stop>
    ensures { actual result s.new (log_of log.new) ≡ expected (log_of log.old) (run_events cfg.now limit s.old) }
{
    let outcome = loop {
        let Some(due) = next_of(limit, s) else {
            break Ok(());
        };
        s.clock.now_ns = due.at_ns.max(s.clock.now_ns);
        if let Err(stop) = handle(cfg, due.class, s, log) {
            break Err(stop);
        }
    };
    outcome
}
