// The reports on their way to the agent, at most 24.
#![tactic(auto)]

use book::Delivery;
use lists::Arr;

pub const CAPACITY: usize = 24;

pub type Deliveries = Arr<Delivery, CAPACITY>;
