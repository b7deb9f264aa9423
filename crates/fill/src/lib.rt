// Which orders a row matches, and how many lots of one it fills.
#![tactic(auto)]

ghost use Rattle.std.specs.Prelude.{◌≡◌, ◌-◌, ◌*◌, ◌/◌};
ghost use Rattle.rules.specs.Matching.{crosses, matches, ahead, lots_of, queue_fill_lots, fill_lots};

use book::config::{FillMode, KernelTick};
use book::{OrderState, Side, VenueOrder};
use wide::{floor, product};

const NS_PER_MS: u64 = 1_000_000;

#[tactic(auto, unfolding(book::specs::Entries::on_side))]
fn crosses(row: &KernelTick, order: &VenueOrder) -> bool
    ensures { result ≡ crosses row.now order.now }
{
    match order.side {
        Side::Buy => row.ask <= order.price,
        Side::Sell => order.price <= row.bid,
    }
}

// Whether the order is active long enough, has a price and lots, and the row crosses its price.
#[tactic(auto, unfolding(rules::specs::Matching::matches))]
pub fn matches(row: &KernelTick, order: &VenueOrder) -> bool
    ensures { result ≡ matches row.now order.now }
{
    order.state == OrderState::Active
        && row.ts_ns > order.active_after_ns
        && order.price > 0
        && order.remaining() > 0
        && crosses(row, order)
}

// The lots that stand in front of the order at the touch: none strictly through its price.
#[tactic(auto, unfolding(rules::specs::Matching::ahead, book::specs::Entries::on_side, numbers::specs::Choice::pick))]
fn ahead_of(row: &KernelTick, order: &VenueOrder) -> u64
    ensures { result ≡ ahead row.now order.now }
{
    match order.side {
        Side::Buy if row.ask < order.price => 0,
        Side::Buy => row.ask_lots,
        Side::Sell if order.price < row.bid => 0,
        Side::Sell => row.bid_lots,
    }
}

// What clears of the order: floor(rate * ms / per) lots have passed, less those ahead of it. Numbers, and no struct: the time and the lots ahead are of this row alone.
#[tactic(auto, unfolding(rules::specs::Matching::lots_of, numbers::specs::Choice::pick))]
fn cleared_lots(rate: u64, ms: u64, per: u64, ahead: u64, order: &VenueOrder) -> u64
    ensures { result ≡ lots_of (rate * ms / per - ahead) order.now }
{
    let passed = floor(product(rate, ms), per);
    let cumulative = passed.saturating_sub(u128::from(ahead));
    let cleared = cumulative.min(u128::from(order.qty)) as u64;
    cleared.saturating_sub(order.filled)
}

// The numbers of the queue's mode are taken apart at the one call, as in the Rust, and no struct holds them.
#[tactic(auto, unfolding(rules::specs::Matching::queue_fill_lots, numbers::specs::Choice::pick))]
fn queue_fill_lots(rate_lots: u64, per_ms: u64, row: &KernelTick, order: &VenueOrder) -> Option<u64>
    ensures { result ≡ queue_fill_lots rate_lots per_ms row.now order.now }
{
    let ms = row.ts_ns.saturating_sub(order.active_after_ns) / NS_PER_MS;
    let ahead = ahead_of(row, order);
    if per_ms == 0 {
        return None;
    }
    Some(cleared_lots(rate_lots, ms, per_ms, ahead, order))
}

// The lots of the order that the row fills; none is the halt at `per_ms` 0.
pub fn fill_lots(mode: &FillMode, row: &KernelTick, order: &VenueOrder) -> Option<u64>
    ensures { result ≡ fill_lots mode.now row.now order.now }
{
    match *mode {
        FillMode::Immediate => Some(order.remaining()),
        FillMode::QueuePosition {
            rate_lots,
            per_ms,
            ..
        } => queue_fill_lots(rate_lots, per_ms, row, order),
    }
}
