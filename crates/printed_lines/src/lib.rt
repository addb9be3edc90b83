// The lines that replay prints: those of collect and show, and the line of a call by what its caller is told. Assumes
// nothing.
#![tactic(auto)]

pub mod saying;
pub mod shown;
