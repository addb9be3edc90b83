// The answering side: what a responder answers to a request, by its address and its service. It touches no queue and no
// token. Assumes nothing.
#![tactic(auto)]

ghost use Rattle.std.specs.Prelude.{◌≡◌};
ghost use Rattle.state.specs.Answering.{Asked, memory};
ghost use Rattle.state.specs.Answering.{answer as answering_answer};
ghost use Rattle.state.specs.Told.{Says};

mod answers;
mod counted;
mod memory;
mod news;
mod reply;

use control::Control;
use memory::Bits;
use state::{Asks, Indication, Kept, Responder, Spoken};

// What the caller gives to an answer: whether it has room for an indication, and its updates, the high and the low one.
#[derive(Clone, Copy)]
pub struct Caller<'a> {
    pub room: bool,
    pub high: &'a [u8],
    pub low: &'a [u8],
}

// Answers a request to TS or to all.
#[tactic(auto, unfolding(choice::specs::Choice::pick, choice::specs::Choice::same, state::specs::Answering::answered, state::specs::Answering::sdn_events, state::specs::Answering::answer_as, state::specs::Answering::answer_to, state::specs::Answering::answer))]
pub fn answer(
    responder: Responder,
    points: &[u8; 64],
    k: Kept,
    octets: &mut [u8; 255],
    caller: Caller,
    request: Indication,
    out: &mut [u8],
) -> Spoken
    requires { Asked responder k request.head caller.high.now caller.low.now out.old }
    ensures says { Says
        (answering_answer responder points.now (memory k octets.old) caller.entry.room caller.entry.high.now
        caller.entry.low.now request.head request.part).memory.kept
        (answering_answer responder points.now (memory k octets.old) caller.entry.room caller.entry.high.now
        caller.entry.low.now request.head request.part).events out.old result out.new }
    ensures octets_after { octets.new
        ≡ (answering_answer responder points.now (memory k octets.old) caller.entry.room caller.entry.high.now
        caller.entry.low.now request.head request.part).memory.octets }
{
    let h = request.head;
    let ours = h.destination == responder.ts || h.destination.0 == 127;
    let (asks, bits) = match h.control {
        Control::Request { service, fcb, fcv } if ours => (
            answers::asks(service),
            Bits { fcb, fcv },
        ),
        _ => return answers::silent(k, None),
    };
    match asks {
        Asks::Sda => counted::answer_counted(
            responder, points, k, octets, true, bits, caller, request, out,
        ),
        Asks::Srd => counted::answer_counted(
            responder, points, k, octets, false, bits, caller, request, out,
        ),
        Asks::Sdn => answers::answer_sdn(points, k, caller.room, request),
        Asks::Status => answers::answer_status(responder, k, h, out),
        Asks::Never => answers::silent(k, None),
    }
}
