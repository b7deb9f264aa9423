// What a message of the venue does: an activation, a cancel, an expiry, and here the steps that others take too. What a step takes stands apart, as in `reports`.
#![tactic(auto)]

pub mod activation;
pub mod cancel;
pub mod expiry;

ghost use Rattle.std.specs.Prelude.{◌≡◌, None};
ghost use Rattle.state.specs.declared.KernelState.{KernelState};
ghost use Rattle.rules.specs.Report.{queue_delivery, report_on};
ghost use Rattle.rules.specs.Messages.{release, await_marked, remove_expiry};
ghost use Rattle.reports.specs.Log.{log_of, expected, actual, halting, run_of};
ghost use Rattle.reports.specs.Report.{stamp_of};

use book::config::Config;
use book::{ExecKind, VenueOrder};
use models::gate;
use orders::insert_by_id;
use reports::log::Log;
use reports::report::{Stamped, queue_delivery, status_report};
use state::{HaltReason, KernelState};

// The order's remaining lots are live no more.
#[tactic(auto, unfolding(rules::specs::Messages::release, numbers::specs::Choice::on_some))]
pub fn release(s: &mut KernelState, order: &VenueOrder) -> Result<(), HaltReason>
    ensures { run_of result s.new ≡ release order.now s.old }
{
    let released = gate::release(s.gate, order.side, order.remaining());
    s.gate = released.ok_or(HaltReason::CounterOverflow)?;
    Ok(())
}

// The order's first expiry goes, if there is one: an order that ended otherwise keeps none.
#[tactic(auto, unfolding(rules::specs::Messages::remove_expiry, numbers::specs::Choice::on_some))]
pub fn remove_expiry(s: &mut KernelState, id: u64)
    ensures { s.new ≡ remove_expiry id s.old }
{
    if let Some(index) = msgs::expiry(&s.msgs, id) {
        s.msgs.remove(index);
    }
}

// An order with a cancel in flight awaits its outcome.
pub fn await_marked(s: &mut KernelState, order: VenueOrder) -> Result<(), HaltReason>
    ensures { run_of result s.new ≡ await_marked order s.old }
{
    if order.cancel_inflight {
        insert_by_id(&mut s.awaiting, order).answer?;
    }
    Ok(())
}

// A report on an order without a fill, stamped in the state `at`.
fn report(
    cfg: &Config,
    s: &mut KernelState,
    stamped: Stamped,
    order: &VenueOrder,
    kind: ExecKind,
    cancel_pending: bool,
    log: &mut Log,
) -> Result<(), HaltReason>
    ensures { (at : KernelState) → stamped ≡ stamp_of at → actual (halting result) s.new (log_of log.new) ≡ expected (log_of log.old) (queue_delivery cfg.now (report_on at order.now kind cancel_pending 0) None s.old) }
{
    queue_delivery(
        cfg,
        s,
        status_report(stamped, order, kind, cancel_pending, 0),
        None,
        log,
    )
}
