// Matching a row over the booked orders, and the terminal orders that leave after it (match_row and process_fill of step.rs of the Rust).
// What a step takes stands apart, as in `reports`.
#![tactic(auto)]

ghost use Rattle.std.specs.Prelude.{◌≡◌, ◌≤◌, IfOk};
ghost use Rattle.book.specs.Entries.{remaining};
ghost use Rattle.rules.specs.Matching.{filled_by, fill_kind, fill_record, fill_event, fill_at, match_at, match_from, leave, terminal_at, sweep, gate_marked, match_row};
ghost use Rattle.reports.specs.Log.{log_of, expected, actual, halting, run_of};
ghost use Rattle.reports.specs.Report.{stamp_of};

use book::config::{Config, KernelTick};
use book::{ExecKind, FillRec, OrderState, VenueOrder};
use deeds::{await_marked, remove_expiry};
use fill::{fill_lots, matches};
use models::gate;
use numbers::words::{checked_add, checked_mul};
use reports::log::Log;
use reports::report::{Stamped, queue_delivery, stamp, status_report};
use state::{GateState, HaltReason, KernelEvent, KernelState};

// The order after a fill, which is Filled where nothing remains. The order and the lots of its fill stand apart, here and below: one is stored, the other told.
#[tactic(auto, unfolding(rules::specs::Matching::filled_by, numbers::specs::Choice::pick))]
fn filled_by(order: &VenueOrder, lots: u64) -> VenueOrder
    requires { lots ≤ remaining order.now }
    ensures { result ≡ filled_by lots order.now }
{
    let state = if lots == order.remaining() {
        OrderState::Filled
    } else {
        order.state
    };
    VenueOrder {
        filled: order.filled + lots,
        state,
        ..*order
    }
}

// A fill of all that remained, or a partial one.
#[tactic(auto, unfolding(numbers::specs::Choice::pick))]
fn fill_kind(order: &VenueOrder, lots: u64) -> ExecKind
    ensures { result ≡ fill_kind lots order.now }
{
    if lots == order.remaining() {
        ExecKind::Fill
    } else {
        ExecKind::PartialFill
    }
}

// A fill up to its event: the stamp, then the gate and the execution number, written only when both and the doubled price have passed, and the counter.
fn fill_event(
    order: &VenueOrder,
    lots: u64,
    s: &mut KernelState,
    log: &mut Log,
) -> Result<(Stamped, FillRec), HaltReason>
    ensures rule { actual (halting result) s.new (log_of log.new) ≡ expected (log_of log.old) (fill_event order.now lots s.old) }
    ensures answer { IfOk result (λ told. told ≡ (stamp_of s.old, fill_record s.old order.now lots)) }
{
    let stamped = stamp(s)?;
    let gate = gate::fill(s.gate, order.side, lots).ok_or(HaltReason::CounterOverflow)?;
    checked_mul(order.price, 2).ok_or(HaltReason::LedgerOverflow)?;
    let exec_id = s.seqs.next_exec_id;
    let next_exec_id = checked_add(exec_id, 1).ok_or(HaltReason::CounterOverflow)?;
    s.gate = gate;
    s.seqs.next_exec_id = next_exec_id;
    s.counters.venue_fills = checked_add(s.counters.venue_fills, 1).ok_or(
        HaltReason::CounterOverflow,
    )?;
    let fill = FillRec {
        ts_ns: stamped.ts_ns,
        exec_id,
        order_id: order.id,
        side: order.side,
        price: order.price,
        qty: lots,
    };
    log.emit(KernelEvent::Fill(fill));
    Ok((stamped, fill))
}

// A fill, then the order stored, and its report.
fn fill_at(
    cfg: &Config,
    index: usize,
    order: &VenueOrder,
    lots: u64,
    s: &mut KernelState,
    log: &mut Log,
) -> Result<(), HaltReason>
    requires { lots ≤ remaining order.now }
    ensures { actual (halting result) s.new (log_of log.new) ≡ expected (log_of log.old) (fill_at cfg.now index order.now lots s.old) }
{
    let (stamped, fill) = fill_event(order, lots, s, log)?;
    let filled = filled_by(order, lots);
    let kind = fill_kind(order, lots);
    let report = status_report(stamped, &filled, kind, order.cancel_inflight, lots);
    // the order was found there, so it is there to be stored to
    let _ = s.orders.store(index, filled);
    queue_delivery(cfg, s, report, Some(fill), log)
}

// The row at one place.
fn match_at(
    cfg: &Config,
    row: &KernelTick,
    index: usize,
    s: &mut KernelState,
    log: &mut Log,
) -> Result<(), HaltReason>
    ensures { actual (halting result) s.new (log_of log.new) ≡ expected (log_of log.old) (match_at cfg.now row.now index s.old) }
{
    let Some(order) = s.orders.get(index) else {
        return Ok(());
    };
    if !matches(row, &order) {
        return Ok(());
    }
    let lots = fill_lots(&cfg.fill, row, &order).ok_or(HaltReason::CounterOverflow)?;
    if lots == 0 {
        return Ok(());
    }
    fill_at(cfg, index, &order, lots, s, log)
}

// The row over the orders, in list order: a look for each, and no more than there are places. An order that it fills stays where it is.
// By places: a fill stores the order while the gate, the numbers, the deliveries, the generator and the log change too, so no borrow of the list can stand.
fn match_orders(
    cfg: &Config,
    row: &KernelTick,
    s: &mut KernelState,
    log: &mut Log,
) -> Result<(), HaltReason>
    ensures { actual (halting result) s.new (log_of log.new) ≡ expected (log_of log.old) (match_from cfg.now row.now s.old.orders.count 0 s.old) }
{
    let looks = s.orders.count.min(orders::CAPACITY);
    for index in 0..looks {
        match_at(cfg, row, index, s, log)?;
    }
    Ok(())
}

#[tactic(auto, unfolding(rules::specs::Matching::terminal_at, numbers::specs::Choice::on_some))]
fn terminal_at(place: usize, s: &KernelState) -> bool
    ensures { result ≡ terminal_at place s.now }
{
    s.orders
        .get(place)
        .is_some_and(|order| order.state.is_terminal())
}

// The order at a place leaves with its expiry, to awaiting if a cancel is in flight.
fn leave(place: usize, s: &mut KernelState) -> Result<(), HaltReason>
    ensures { run_of result s.new ≡ leave place s.old }
{
    let Some(order) = s.orders.remove(place).answer else {
        return Ok(());
    };
    remove_expiry(s, order.id);
    await_marked(s, order)
}

// The terminal orders leave: as many looks as orders. Where one left, the next stands at its place.
// By places, and not by `retain`: an order's leaving can halt, and then those before it have left and those behind it stand.
fn sweep(s: &mut KernelState) -> Result<(), HaltReason>
    ensures { run_of result s.new ≡ sweep s.old }
{
    let looks = s.orders.count.min(orders::CAPACITY);
    let mut place = 0;
    for _look in 0..looks {
        if terminal_at(place, s) {
            leave(place, s)?;
        } else {
            place += 1;
        }
    }
    Ok(())
}

// The gate keeps the doubled mid of a row that has one.
#[tactic(auto, unfolding(rules::specs::Matching::gate_marked, numbers::specs::Choice::pick))]
fn mark(gate: &mut GateState, mid2: u64)
    ensures { gate.new ≡ gate_marked mid2 gate.old }
{
    if mid2 > 0 {
        gate.mark2 = Some(mid2);
    }
}

// A row: its mid marks the gate, it is matched, and the orders that have ended leave.
pub fn match_row(
    cfg: &Config,
    row: &KernelTick,
    s: &mut KernelState,
    log: &mut Log,
) -> Result<(), HaltReason>
    ensures { actual (halting result) s.new (log_of log.new) ≡ expected (log_of log.old) (match_row cfg.now row.now s.old) }
{
    let mid2 = checked_add(row.bid, row.ask).ok_or(HaltReason::LedgerOverflow)?;
    mark(&mut s.gate, mid2);
    match_orders(cfg, row, s, log)?;
    sweep(s)
}
