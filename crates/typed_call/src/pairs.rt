// The pairs that stand behind a line's words, a name and its value: the first behind the last word, each behind the one
// before it, and the line ends behind the last. Any line has them; what is left out has its standard value. Assumes
// nothing.
ghost use Rattle.std.specs.Prelude.{◌≡◌, ◌≤◌};
ghost use Rattle.typed_call.specs.Pairs.{tsdi_of, start_pairs, ref_of, limit_of, asks_of, submit_pairs};

use super::table;
use typed::places::{LONG, Pair, SHORT};
use typed::{places, words};

// The pairs of start, in their order.
#[tactic(auto, unfolding(crate::specs::Pairs::tsdi_of))]
pub fn tsdi(line: &[u8]) -> Pair
    ensures { result ≡ tsdi_of line.now }
{
    places::pair_at(
        line,
        table::STARTWORDS,
        b"tsdi",
        LONG,
        times::standard().tsdi.0,
    )
}

// Whether the pairs of a start fit their places, and the line ends behind the last.
#[tactic(auto, unfolding(choice::specs::Choice::pick, choice::specs::Choice::said, choice::specs::Choice::same, crate::specs::Pairs::start_pairs))]
pub fn start_pairs(line: &[u8]) -> bool
    ensures { result ≡ start_pairs line.now }
{
    let last = tsdi(line);
    last.number.is_some() && words::count(line) == last.behind
}

// The pairs of submit, in their order.
#[tactic(auto, unfolding(crate::specs::Pairs::ref_of))]
pub fn reference(line: &[u8]) -> Pair
    ensures { (result ≡ ref_of line.now) × (result.behind ≤ 9) }
{
    places::pair_at(line, table::SUBMITWORDS, b"ref", LONG, 0)
}

#[tactic(auto, unfolding(crate::specs::Pairs::limit_of))]
pub fn limit(line: &[u8]) -> Pair
    ensures { result ≡ limit_of line.now }
{
    places::pair_at(line, reference(line).behind, b"limit", SHORT, 0)
}

// Whether a submit leaves its limit to the station.
#[tactic(auto, unfolding(choice::specs::Choice::same, crate::specs::Pairs::asks_of))]
pub fn asks(line: &[u8]) -> bool
    ensures { result ≡ asks_of line.now }
{
    limit(line).behind == reference(line).behind
}

// Whether the pairs of a submit fit their places, and the line ends behind the last.
#[tactic(auto, unfolding(choice::specs::Choice::pick, choice::specs::Choice::said, choice::specs::Choice::same, crate::specs::Pairs::submit_pairs))]
pub fn submit_pairs(line: &[u8]) -> bool
    ensures { result ≡ submit_pairs line.now }
{
    let last = limit(line);
    reference(line).number.is_some() && last.number.is_some() && words::count(line) == last.behind
}
