// The leaves of the kernel: the generator (rng.rs of the Rust), the delay (latency.rs), the gate (gate.rs), and the account (account.rs).
#![tactic(auto)]

pub mod effect;
pub mod gate;
pub mod latency;
pub mod rng;
