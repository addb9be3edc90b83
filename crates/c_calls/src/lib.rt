// The station's calls for C, which holds the core as numbers and lends the arrays. Assumes nothing.
#![tactic(auto)]

pub mod queues;
pub mod turns;
