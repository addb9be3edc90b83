// What replay prints, laid into a text: numbers and words, what was sent and indicated, a refusal. Assumes nothing.
#![tactic(auto)]

pub mod numeral;
pub mod phrases;
