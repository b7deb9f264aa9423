// The venue's cancel of a resting order at its expiry. What a step takes stands apart, as in `reports`.
ghost use Rattle.std.specs.Prelude.{◌≡◌};
ghost use Rattle.state.specs.declared.KernelState.{KernelState};
ghost use Rattle.rules.specs.Messages.{expire_booked, expire};
ghost use Rattle.reports.specs.Log.{log_of, expected, actual, halting};
ghost use Rattle.reports.specs.Report.{stamp_of};

use super::{await_marked, release, report};
use book::config::Config;
use book::{ExecKind, OrderState};
use orders::booked;
use reports::log::Log;
use reports::report::{Stamped, stamp};
use state::{HaltReason, KernelEvent, KernelState};

// An order with the agent's cancel in flight then awaits it, as after a fill before a cancel.
fn expire_booked(
    cfg: &Config,
    s: &mut KernelState,
    stamped: Stamped,
    index: usize,
    log: &mut Log,
) -> Result<(), HaltReason>
    ensures { (at : KernelState) → stamped ≡ stamp_of at → actual (halting result) s.new (log_of log.new) ≡ expected (log_of log.old) (expire_booked cfg.now at index s.old) }
{
    let Some(order) = s.orders.remove(index).answer else {
        return Ok(());
    };
    release(s, &order)?;
    log.emit(KernelEvent::Expired {
        order_id: order.id,
        at_ns: s.clock.now_ns,
    });
    report(
        cfg,
        s,
        stamped,
        &order,
        ExecKind::Canceled,
        order.cancel_inflight,
        log,
    )?;
    await_marked(s, order.in_state(OrderState::Canceled))
}

// Nothing, if the order is not booked and open.
pub fn expire(cfg: &Config, s: &mut KernelState, id: u64, log: &mut Log) -> Result<(), HaltReason>
    ensures { actual (halting result) s.new (log_of log.new) ≡ expected (log_of log.old) (expire cfg.now id s.old) }
{
    let Some(index) = booked(&s.orders, id) else {
        return Ok(());
    };
    let stamped = stamp(s)?;
    expire_booked(cfg, s, stamped, index, log)
}
