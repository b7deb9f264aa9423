// The venue's messages, at most 16, which stand by (eff_ns, seq).
#![tactic(auto)]

ghost use Rattle.std.specs.Prelude.{◌≡◌};
ghost use Rattle.lists.specs.Lists.{live, found_in, put_before, put_of};
ghost use Rattle.book.specs.Capacities.{msgs_capacity};
ghost use Rattle.book.specs.Entries.{is_later, is_activation, is_expiry};

use book::VenueMsg;
use lists::{Arr, Counted, Full};

pub const CAPACITY: usize = 16;

pub type Msgs = Arr<VenueMsg, CAPACITY>;

// The first activation of this order.
pub fn activation(msgs: &Msgs, id: u64) -> Option<usize>
    ensures { result ≡ found_in (is_activation id) (live msgs_capacity msgs.now) }
{
    msgs.as_slice().iter().position(|msg| msg.is_activation(id))
}

// The first expiry of this order.
pub fn expiry(msgs: &Msgs, id: u64) -> Option<usize>
    ensures { result ≡ found_in (is_expiry id) (live msgs_capacity msgs.now) }
{
    msgs.as_slice().iter().position(|msg| msg.is_expiry(id))
}

// Before the first with a greater pair, else behind the last. It differs from `orders::insert_by_id` in the test alone, and why no method takes the test is said there.
pub fn insert_by_key(msgs: &mut Msgs, msg: VenueMsg) -> Counted<Result<(), Full>>
    ensures { put_of result msgs.new ≡ put_before msgs_capacity (is_later msg.eff_ns msg.seq) msg msgs.old }
{
    let live = msgs.as_slice();
    let later = live
        .iter()
        .position(|other| other.is_later(msg.eff_ns, msg.seq));
    let at = later.unwrap_or(live.len());
    msgs.insert(at, msg)
}
