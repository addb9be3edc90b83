// A line of the replay script as a call of its table, or none. Only what the line is is said here; what the words of a
// good line give the call is read by `operands`. Assumes nothing.
ghost use Rattle.std.specs.Prelude.{◌≡◌};
ghost use Rattle.typed_call.specs.Script.{is_site, is_start, is_pointed, is_request, is_submit, is_heard, is_frame};
ghost use Rattle.typed_call.specs.Script.{is_clocked, is_collect, plain_of, clocked_of, call_of};

use super::{pairs, table};
use typed::places::{LONG, SHORT};
use typed::{digits, places, words};

// The calls of the table, and what is none.
// Kept: the definitions of play and desk take `Unknown` as a call of its own, with an answer of its own, and desk's
// theorems name it.
#[derive(Clone, Copy, PartialEq, Eq, Debug)]
pub enum Call {
    Unknown,
    Start,
    Submit,
    Frame,
    Sent,
    Slot,
    Reset,
    Collect,
    Show,
}

// Whether the words of a start from the masters on fit their places.
#[tactic(auto, unfolding(choice::specs::Choice::pick, choice::specs::Choice::said, crate::specs::Script::is_site))]
fn is_site(s: &[u8]) -> bool
    ensures { result ≡ is_site s.now }
{
    places::masters_at(s, table::MASTERS)
        && places::points_at(s, table::POINTS)
        && places::numbers(s, table::HIGHROW, table::ROWS, SHORT)
}

// Whether a line starts the station.
#[tactic(auto, unfolding(choice::specs::Choice::pick, choice::specs::Choice::said, crate::specs::Script::is_start))]
fn is_start(s: &[u8]) -> bool
    ensures { result ≡ is_start s.now }
{
    places::called(s, b"start")
        && pairs::start_pairs(s)
        && places::numbers(s, table::TSET, table::LONGS, LONG)
        && is_site(s)
}

// Whether the words of a submit from DSAP on fit their places, and those from SERVICE on.
#[tactic(auto, unfolding(choice::specs::Choice::pick, choice::specs::Choice::said, crate::specs::Script::is_pointed))]
fn is_pointed(s: &[u8]) -> bool
    ensures { result ≡ is_pointed s.now }
{
    places::access(words::word(s, table::DSAP)).is_some()
        && places::access(words::word(s, table::SSAP)).is_some()
        && digits::is_octets(words::word(s, table::DATA))
}

#[tactic(auto, unfolding(choice::specs::Choice::pick, choice::specs::Choice::said, crate::specs::Script::is_request))]
fn is_request(s: &[u8]) -> bool
    ensures { result ≡ is_request s.now }
{
    places::service(words::word(s, table::SERVICE)).is_some()
        && places::numbers(s, table::DA, 1, SHORT)
        && is_pointed(s)
}

// Whether a line submits a request.
#[tactic(auto, unfolding(choice::specs::Choice::pick, choice::specs::Choice::said, crate::specs::Script::is_submit))]
fn is_submit(s: &[u8]) -> bool
    ensures { result ≡ is_submit s.now }
{
    places::called(s, b"submit")
        && pairs::submit_pairs(s)
        && places::queue(words::word(s, table::QUEUE)).is_some()
        && is_request(s)
}

// Whether the words of a frame from HIGH on fit their places.
#[tactic(auto, unfolding(choice::specs::Choice::pick, choice::specs::Choice::said, crate::specs::Script::is_heard))]
fn is_heard(s: &[u8]) -> bool
    ensures { result ≡ is_heard s.now }
{
    digits::is_octets(words::word(s, table::HIGH))
        && digits::is_octets(words::word(s, table::LOW))
        && digits::is_octets(words::word(s, table::OCTETS))
}

// Whether a line gives a frame.
#[tactic(auto, unfolding(choice::specs::Choice::pick, choice::specs::Choice::said, crate::specs::Script::is_frame))]
fn is_frame(s: &[u8]) -> bool
    ensures { result ≡ is_frame s.now }
{
    places::named(s, b"frame", table::FRAMEWORDS)
        && places::numbers(s, table::CLOCK, 1, LONG)
        && places::room(words::word(s, table::ROOM)).is_some()
        && is_heard(s)
}

// Whether a line is a call of a name with a clock.
#[tactic(auto, unfolding(choice::specs::Choice::pick, choice::specs::Choice::said, crate::specs::Script::is_clocked))]
fn is_clocked(s: &[u8], name: &[u8]) -> bool
    ensures { result ≡ is_clocked s.now name.now }
{
    places::named(s, name, table::CLOCKEDWORDS) && places::numbers(s, table::CLOCK, 1, LONG)
}

// Whether a line collects a record.
#[tactic(auto, unfolding(choice::specs::Choice::pick, choice::specs::Choice::said, crate::specs::Script::is_collect))]
fn is_collect(s: &[u8]) -> bool
    ensures { result ≡ is_collect s.now }
{
    places::named(s, b"collect", table::COLLECTWORDS)
        && places::queue(words::word(s, table::QUEUE)).is_some()
}

// The call that a line is, of those that are given nothing but a queue.
#[tactic(auto, unfolding(choice::specs::Choice::pick, choice::specs::Choice::said, crate::specs::Script::plain_of))]
fn plain_of(s: &[u8]) -> Call
    ensures { result ≡ plain_of s.now }
{
    if places::named(s, b"reset", table::ALONE) {
        Call::Reset
    } else if is_collect(s) {
        Call::Collect
    } else if places::named(s, b"show", table::ALONE) {
        Call::Show
    } else {
        Call::Unknown
    }
}

// The call that a line is, of these and those that are given nothing but a clock.
#[tactic(auto, unfolding(choice::specs::Choice::pick, choice::specs::Choice::said, crate::specs::Script::clocked_of))]
fn clocked_of(s: &[u8]) -> Call
    ensures { result ≡ clocked_of s.now }
{
    if is_clocked(s, b"sent") {
        Call::Sent
    } else if is_clocked(s, b"slot") {
        Call::Slot
    } else {
        plain_of(s)
    }
}

// The call that a line is.
#[tactic(auto, unfolding(choice::specs::Choice::pick, choice::specs::Choice::said, crate::specs::Script::call_of))]
pub fn call_of(s: &[u8]) -> Call
    ensures { result ≡ call_of s.now }
{
    if is_start(s) {
        Call::Start
    } else if is_submit(s) {
        Call::Submit
    } else if is_frame(s) {
        Call::Frame
    } else {
        clocked_of(s)
    }
}
