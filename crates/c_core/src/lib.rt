// A station at the C boundary: its core and an indication as numbers, the state that they mean with the lent arrays,
// and each answer as a struct. Assumes nothing.
#![tactic(auto)]

pub mod handover;
pub mod numbers;
