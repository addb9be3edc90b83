// The station's calls start and reset. Assumes nothing.
#![tactic(auto)]

pub mod resetting;
pub mod starting;

pub use resetting::reset;
pub use starting::start;
