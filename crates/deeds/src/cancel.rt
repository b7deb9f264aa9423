// A cancel of the agent: of a booked order, else of one whose activation is pending, else too late for one that awaits it. What a step takes stands apart, as in `reports`.
ghost use Rattle.std.specs.Prelude.{◌≡◌};
ghost use Rattle.state.specs.declared.KernelState.{KernelState};
ghost use Rattle.rules.specs.Messages.{cancel_booked, cancel_activation, cancel_awaiting, cancel};
ghost use Rattle.reports.specs.Log.{log_of, expected, actual, halting};
ghost use Rattle.reports.specs.Report.{stamp_of};

use super::{release, remove_expiry, report};
use book::config::Config;
use book::{ExecKind, MsgKind};
use msgs::activation;
use orders::{booked, position};
use reports::log::Log;
use reports::report::{Stamped, stamp};
use state::{HaltReason, KernelState};

// The order leaves the book, and its expiry goes with it.
fn cancel_booked(
    cfg: &Config,
    s: &mut KernelState,
    stamped: Stamped,
    index: usize,
    log: &mut Log,
) -> Result<(), HaltReason>
    ensures { (at : KernelState) → stamped ≡ stamp_of at → actual (halting result) s.new (log_of log.new) ≡ expected (log_of log.old) (cancel_booked cfg.now at index s.old) }
{
    let Some(order) = s.orders.remove(index).answer else {
        return Ok(());
    };
    release(s, &order)?;
    remove_expiry(s, order.id);
    report(cfg, s, stamped, &order, ExecKind::Canceled, false, log)
}

// The order's activation leaves the queue. Its expiry is not there yet.
fn cancel_activation(
    cfg: &Config,
    s: &mut KernelState,
    stamped: Stamped,
    index: usize,
    log: &mut Log,
) -> Result<(), HaltReason>
    ensures { (at : KernelState) → stamped ≡ stamp_of at → actual (halting result) s.new (log_of log.new) ≡ expected (log_of log.old) (cancel_activation cfg.now at index s.old) }
{
    let Some(msg) = s.msgs.remove(index).answer else {
        return Ok(());
    };
    let MsgKind::Activate { order, .. } = msg.kind else {
        return Ok(());
    };
    release(s, &order)?;
    report(cfg, s, stamped, &order, ExecKind::Canceled, false, log)
}

// The order ended before its cancel came.
fn cancel_awaiting(
    cfg: &Config,
    s: &mut KernelState,
    stamped: Stamped,
    index: usize,
    log: &mut Log,
) -> Result<(), HaltReason>
    ensures { (at : KernelState) → stamped ≡ stamp_of at → actual (halting result) s.new (log_of log.new) ≡ expected (log_of log.old) (cancel_awaiting cfg.now at index s.old) }
{
    let Some(order) = s.awaiting.remove(index).answer else {
        return Ok(());
    };
    report(
        cfg,
        s,
        stamped,
        &order,
        ExecKind::CancelRejected,
        false,
        log,
    )
}

// A cancel takes a stamp also where it finds no order.
pub fn cancel(cfg: &Config, s: &mut KernelState, id: u64, log: &mut Log) -> Result<(), HaltReason>
    ensures { actual (halting result) s.new (log_of log.new) ≡ expected (log_of log.old) (cancel cfg.now id s.old) }
{
    let stamped = stamp(s)?;
    if let Some(index) = booked(&s.orders, id) {
        return cancel_booked(cfg, s, stamped, index, log);
    }
    if let Some(index) = activation(&s.msgs, id) {
        return cancel_activation(cfg, s, stamped, index, log);
    }
    if let Some(index) = position(&s.awaiting, id) {
        return cancel_awaiting(cfg, s, stamped, index, log);
    }
    Ok(())
}
