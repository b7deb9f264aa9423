// An activation: a valid order rests at the venue, with its expiry; an invalid one is rejected. What a step takes stands apart, as in `reports`.
ghost use Rattle.std.specs.Prelude.{◌≡◌, ℕ};
ghost use Rattle.book.specs.declared.MsgKind.{MsgKind};
ghost use Rattle.state.specs.declared.KernelState.{KernelState};
ghost use Rattle.rules.specs.Messages.{valid, schedule, schedule_expiry, accept, reject, activate};
ghost use Rattle.reports.specs.Log.{log_of, expected, actual, halting, run_of};
ghost use Rattle.reports.specs.Report.{stamp_of};

use super::{await_marked, release, report};
use book::config::Config;
use book::{ExecKind, MsgKind, OrderState, VenueMsg, VenueOrder};
use msgs::insert_by_key;
use numbers::words::checked_add;
use reports::log::Log;
use reports::report::{Stamped, stamp};
use state::{HaltReason, KernelState};

pub fn is_valid(order: &VenueOrder) -> bool
    ensures { result ≡ valid order.now }
{
    order.price > 0 && order.qty > 0
}

// A new message takes the next number and its place.
fn schedule(s: &mut KernelState, eff_ns: u64, kind: MsgKind) -> Result<(), HaltReason>
    ensures { run_of result s.new ≡ schedule eff_ns kind s.old }
{
    let seq = s.seqs.next_msg_seq;
    s.seqs.next_msg_seq = checked_add(seq, 1).ok_or(HaltReason::CounterOverflow)?;
    insert_by_key(&mut s.msgs, VenueMsg { eff_ns, seq, kind }).answer?;
    Ok(())
}

// The order's expiry, if it has one, takes the place that the activation held.
#[tactic(auto, unfolding(rules::specs::Messages::schedule_expiry, numbers::specs::Choice::on_some))]
fn schedule_expiry(s: &mut KernelState, expiry: Option<u64>, id: u64) -> Result<(), HaltReason>
    ensures { run_of result s.new ≡ schedule_expiry expiry id s.old }
{
    match expiry {
        Some(at) => schedule(s, at, MsgKind::Expire { id }),
        None => Ok(()),
    }
}

// A valid order: its report, then it is booked, then its expiry.
fn accept(
    cfg: &Config,
    s: &mut KernelState,
    stamped: Stamped,
    order: VenueOrder,
    expiry: Option<u64>,
    log: &mut Log,
) -> Result<(), HaltReason>
    ensures { (at : KernelState) → stamped ≡ stamp_of at → actual (halting result) s.new (log_of log.new) ≡ expected (log_of log.old) (accept cfg.now order expiry at s.old) }
{
    report(cfg, s, stamped, &order, ExecKind::Accepted, false, log)?;
    s.orders.push(order).answer?;
    schedule_expiry(s, expiry, order.id)
}

// An invalid order: its lots are released, its report, and it awaits a cancel in flight.
fn reject(
    cfg: &Config,
    s: &mut KernelState,
    stamped: Stamped,
    order: VenueOrder,
    log: &mut Log,
) -> Result<(), HaltReason>
    ensures { (at : KernelState) → stamped ≡ stamp_of at → actual (halting result) s.new (log_of log.new) ≡ expected (log_of log.old) (reject cfg.now order at s.old) }
{
    release(s, &order)?;
    report(
        cfg,
        s,
        stamped,
        &order,
        ExecKind::Rejected,
        order.cancel_inflight,
        log,
    )?;
    await_marked(s, order)
}

// An activation that has left the queue; `expiry` is the time of the order's expiry, if it has one.
pub fn activate(
    cfg: &Config,
    s: &mut KernelState,
    order: VenueOrder,
    expiry: Option<u64>,
    log: &mut Log,
) -> Result<(), HaltReason>
    ensures { actual (halting result) s.new (log_of log.new) ≡ expected (log_of log.old) (activate cfg.now order expiry s.old) }
{
    let stamped = stamp(s)?;
    if is_valid(&order) {
        accept(
            cfg,
            s,
            stamped,
            order.in_state(OrderState::Active),
            expiry,
            log,
        )
    } else {
        reject(cfg, s, stamped, order.in_state(OrderState::Rejected), log)
    }
}
