// Checked and wrapping operations of 64 bits, as the definitions speak of them (words), and the signed position (position).
#![tactic(auto)]

pub mod position;
pub mod words;
