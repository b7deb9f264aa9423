// The agent's account: the orders that it submitted and has not seen closed, at most 8 (account.rs of the Rust).
#![tactic(auto)]

ghost use Rattle.std.specs.Prelude.{◌≡◌};
ghost use Rattle.lists.specs.Lists.{live, found_in};
ghost use Rattle.book.specs.Capacities.{account_capacity};
ghost use Rattle.book.specs.Entries.{is_open_of};

use book::OpenOrder;
use lists::Arr;

pub const CAPACITY: usize = 8;

pub type AgentAccount = Arr<OpenOrder, CAPACITY>;

// The first entry of this order.
pub fn position(account: &AgentAccount, id: u64) -> Option<usize>
    ensures { result ≡ found_in (is_open_of id) (live account_capacity account.now) }
{
    account
        .as_slice()
        .iter()
        .position(|entry| entry.order_id == id)
}
