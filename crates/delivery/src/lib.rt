// Deliveries, and the end of data (step.rs of the Rust). The state and the log stand apart, as in `reports`.
#![tactic(auto)]

ghost use Rattle.std.specs.Prelude.{◌≡◌, map};
ghost use Rattle.lists.specs.Lists.{live};
ghost use Rattle.book.specs.Capacities.{msgs_capacity};
ghost use Rattle.rules.specs.Delivery.{move_agent, count_reject, deliver_next, deliver_all, dropped_event, close_data, end_of_data};
ghost use Rattle.reports.specs.Log.{log_of, append_events, expected, actual, halting, run_of};

use book::{ExecKind, FillRec, MsgKind, Origin, ReportRec, VenueMsg};
use models::effect::on_delivery;
use models::gate::move_by;
use msgs::Msgs;
use numbers::words::checked_add;
use reports::Stop;
use reports::log::Log;
use state::{HaltReason, KernelEvent, KernelState, Status};

// The agent's position moves by the fill's record, and the fill is counted.
#[tactic(auto, unfolding(rules::specs::Delivery::count_fill, numbers::specs::Choice::on_some))]
fn move_agent(s: &mut KernelState, fill: Option<FillRec>) -> Result<(), HaltReason>
    ensures { run_of result s.new ≡ move_agent fill s.old }
{
    let Some(fill) = fill else {
        return Ok(());
    };
    let agent = &mut s.agent;
    agent.pos = move_by(agent.pos, fill.side, fill.qty).ok_or(HaltReason::LedgerOverflow)?;
    let fills = checked_add(agent.delivered_fills, 1);
    agent.delivered_fills = fills.ok_or(HaltReason::CounterOverflow)?;
    Ok(())
}

// A local rejection is counted.
#[tactic(auto, unfolding(rules::specs::Delivery::count_reject, numbers::specs::Choice::pick, numbers::specs::Choice::on_some))]
fn count_reject(s: &mut KernelState, report: &ReportRec) -> Result<(), HaltReason>
    ensures { run_of result s.new ≡ count_reject report.now s.old }
{
    if report.kind == ExecKind::Rejected && report.origin == Origin::Local {
        let agent = &mut s.agent;
        let rejects = checked_add(agent.delivered_local_rejects, 1);
        agent.delivered_local_rejects = rejects.ok_or(HaltReason::CounterOverflow)?;
    }
    Ok(())
}

// The first delivery reaches the agent.
pub fn deliver_next(s: &mut KernelState, log: &mut Log) -> Result<(), HaltReason>
    ensures { actual (halting result) s.new (log_of log.new) ≡ expected (log_of log.old) (deliver_next s.old) }
{
    let Some(delivery) = s.deliveries.pop_front().answer else {
        return Ok(());
    };
    log.emit(KernelEvent::Delivered(delivery.report));
    move_agent(s, delivery.fill)?;
    count_reject(s, &delivery.report)?;
    on_delivery(&mut s.account, &delivery.report);
    Ok(())
}

// All deliveries, in list order whatever their times: a turn for each, and no more than there are places.
fn deliver_all(s: &mut KernelState, log: &mut Log) -> Result<(), HaltReason>
    ensures { actual (halting result) s.new (log_of log.new) ≡ expected (log_of log.old) (deliver_all s.old.deliveries.count s.old) }
{
    for _ in 0..s.deliveries.count.min(deliveries::CAPACITY) {
        deliver_next(s, log)?;
    }
    Ok(())
}

fn dropped_event(msg: &VenueMsg) -> KernelEvent
    ensures { result ≡ dropped_event msg.now }
{
    match msg.kind {
        MsgKind::Activate { order, life: _ } => KernelEvent::DroppedMsg {
            order_id: order.id,
            cancel: false,
        },
        MsgKind::Cancel { id } => KernelEvent::DroppedMsg {
            order_id: id,
            cancel: true,
        },
        MsgKind::Expire { id } => KernelEvent::DroppedExpiry { order_id: id },
    }
}

// An event for each message that is dropped at the end of the data.
fn emit_dropped(msgs: &Msgs, log: &mut Log)
    ensures { log_of log.new ≡ append_events (log_of log.old) (map dropped_event (live msgs_capacity msgs.now)) }
{
    for msg in msgs.as_slice() {
        log.emit(dropped_event(msg));
    }
}

// No delivery is left: the messages and observations are dropped, and counted once both lists are empty.
fn close_data(s: &mut KernelState, log: &mut Log) -> Result<(), Stop>
    ensures { actual result s.new (log_of log.new) ≡ expected (log_of log.old) (close_data s.old) }
{
    let dropped_msgs = s.msgs.count as u64;
    let dropped_obs = s.observed.count as u64;
    emit_dropped(&s.msgs, log);
    s.msgs.clear();
    s.observed.clear();
    let counters = &mut s.counters;
    let msgs = checked_add(counters.eof_dropped_msgs, dropped_msgs);
    counters.eof_dropped_msgs = msgs.ok_or(HaltReason::CounterOverflow)?;
    let obs = checked_add(counters.eof_dropped_obs, dropped_obs);
    counters.eof_dropped_obs = obs.ok_or(HaltReason::CounterOverflow)?;
    s.control.end(Status::EndOfData);
    log.emit(KernelEvent::EndOfData {
        dropped_msgs,
        dropped_obs,
    });
    Err(Stop::Ended)
}

// Every delivery reaches the agent, and all that still waits is dropped.
pub fn end_of_data(s: &mut KernelState, log: &mut Log) -> Result<(), Stop>
    ensures { actual result s.new (log_of log.new) ≡ expected (log_of log.old) (end_of_data s.old) }
{
    deliver_all(s, log)?;
    close_data(s, log)
}
