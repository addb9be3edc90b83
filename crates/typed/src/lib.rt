// What is typed to replay: the words of a line, numbers and octets, lists as sets, and what fits each place. Assumes
// nothing.
#![tactic(auto)]

pub mod digits;
pub mod lists;
pub mod places;
pub mod words;
