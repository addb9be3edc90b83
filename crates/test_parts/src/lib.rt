// Parts of the station for C, so that the tests outside Rattle reach each by itself: times, the ring, and the calls on
// a row. No program uses them. Assumes nothing.
#![tactic(auto)]

pub mod reckoned;
pub mod row_calls;
