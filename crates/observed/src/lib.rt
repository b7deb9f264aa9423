// The observations on their way to the agent, at most 16.
#![tactic(auto)]

use book::ObsEntry;
use lists::Arr;

pub const CAPACITY: usize = 16;

pub type Observed = Arr<ObsEntry, CAPACITY>;
