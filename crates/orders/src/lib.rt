// The orders at the venue, and those that await a cancel's outcome: at most 8 each.
#![tactic(auto)]

ghost use Rattle.std.specs.Prelude.{◌≡◌};
ghost use Rattle.lists.specs.Lists.{live, found_in, put_before, put_of};
ghost use Rattle.book.specs.Capacities.{orders_capacity};
ghost use Rattle.book.specs.Entries.{is_open, has_id, id_above};

use book::VenueOrder;
use lists::{Arr, Counted, Full};

pub const CAPACITY: usize = 8;

pub type Orders = Arr<VenueOrder, CAPACITY>;

// The first order of this number that is not terminal.
pub fn booked(orders: &Orders, id: u64) -> Option<usize>
    ensures { result ≡ found_in (is_open id) (live orders_capacity orders.now) }
{
    orders.as_slice().iter().position(|order| order.is_open(id))
}

// The first order of this number, whatever its state.
pub fn position(orders: &Orders, id: u64) -> Option<usize>
    ensures { result ≡ found_in (has_id id) (live orders_capacity orders.now) }
{
    orders.as_slice().iter().position(|order| order.id == id)
}

// Before the first of a greater number, else behind the last: the Rust's insert_by_id. It differs from `msgs::insert_by_key` in the test alone. No public function has a `requires`, as a rule of the project has it, so no method takes the test; a trait for two tests would be longer than what the two share.
pub fn insert_by_id(orders: &mut Orders, order: VenueOrder) -> Counted<Result<(), Full>>
    ensures { put_of result orders.new ≡ put_before orders_capacity (id_above order.id) order orders.old }
{
    let live = orders.as_slice();
    let above = live.iter().position(|other| other.id > order.id);
    let at = above.unwrap_or(live.len());
    orders.insert(at, order)
}
