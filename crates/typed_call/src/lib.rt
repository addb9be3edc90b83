// A line that was typed to replay as a call: which one it is, and what its words give the call. Assumes nothing.
#![tactic(auto)]

pub mod operands;
pub mod pairs;
pub mod script;
pub mod table;
