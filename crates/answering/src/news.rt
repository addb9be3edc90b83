// What a new SDA or SRD is given: whether its access point is active or 63, which update is shown, and by these and the
// caller's room the reply and whether it is indicated. Assumes nothing.
ghost use Rattle.std.specs.Prelude.{◌≡◌, length};
ghost use Rattle.state.specs.Answering.{new_answer};
ghost use Rattle.state.specs.Answering.{active as answering_active, reserved as answering_reserved};
ghost use Rattle.state.specs.Answering.{shown as answering_shown};

use super::Caller;
use control::Code;
use frame::Point;
use state::{Given, New};

// Whether an access point is active.
#[tactic(auto, unfolding(choice::specs::Choice::pick, choice::specs::Choice::less, choice::specs::Choice::same, state::specs::Answering::active))]
pub fn active(points: &[u8; 64], a: Option<Point>) -> bool
    ensures { result ≡ answering_active points.now a }
{
    match a {
        None => points[63] == 1,
        Some(p) => p.0 < 63 && points[usize::from(p.0)] == 1,
    }
}

// Whether an access point is 63.
#[tactic(auto, unfolding(choice::specs::Choice::same, state::specs::Answering::reserved))]
pub fn reserved(a: Option<Point>) -> bool
    ensures { result ≡ answering_reserved a }
{
    a.is_some_and(|p| p.0 == 63)
}

// The update that is shown: the high one, or else the low one.
#[tactic(auto, unfolding(choice::specs::Choice::pick, choice::specs::Choice::less, state::specs::Answering::shown))]
pub fn shown<'a>(high: &'a [u8], low: &'a [u8]) -> &'a [u8]
    ensures { result.now ≡ answering_shown high.now low.now }
{
    if 0 < high.len() {
        return high;
    }
    low
}

// The answer to a new SDA or SRD: with room one thing is given and the request is indicated, without room another.
#[tactic(auto, unfolding(choice::specs::Choice::pick, choice::specs::Choice::less, state::specs::Answering::new, state::specs::Answering::new_sda, state::specs::Answering::new_srd, state::specs::Answering::new_answer))]
pub fn new_answer(active: bool, sda: bool, caller: Caller) -> New
    ensures { result
        ≡ new_answer active sda caller.entry.room (length caller.entry.high.now) (length caller.entry.low.now) }
{
    if !active {
        return New {
            given: Given::Coded(Code::Rs),
            indicated: false,
        };
    }
    let (with, without) = if !sda && 0 < caller.high.len() {
        (Given::Coded(Code::Dh), Code::Rdh)
    } else if !sda && 0 < caller.low.len() {
        (Given::Coded(Code::Dl), Code::Rdl)
    } else {
        (Given::Acknowledged, Code::Rr)
    };
    let room = caller.room;
    New {
        given: if room { with } else { Given::Coded(without) },
        indicated: room,
    }
}
