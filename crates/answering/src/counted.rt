// Counted requests, SDA and SRD: a new one is answered and remembered, a repeated one is answered with the remembered
// reply. Assumes nothing.
ghost use Rattle.std.specs.Prelude.{◌≡◌, ◌≤◌, [], ◌∷◌, length};
ghost use Rattle.state.specs.Answering.{Asked, memory, replies, recalled};
ghost use Rattle.state.specs.Answering.{answer_counted};
ghost use Rattle.state.specs.Told.{Says};

use super::memory::Bits;
use super::{Caller, answers, memory, news, reply};
use state::{Indication, Kept, Responder, Spoken};

// Answers a request again, with the remembered reply.
#[tactic(auto, unfolding(state::specs::Answering::recalled))]
fn answer_again(responder: Responder, k: Kept, octets: &[u8; 255], out: &mut [u8]) -> Spoken
    requires { (k.length ≤ 255) × (255 ≤ length out.old) }
    ensures { Says k (replies responder (recalled (memory k octets.now)) ∷ []) out.old result
        out.new }
{
    Spoken {
        kept: k,
        length: memory::recall(octets, usize::from(k.length), out),
        wait: responder.wait,
        indication: None,
    }
}

// Answers a counted request: an SDA, or an SRD.
#[tactic(auto, unfolding(choice::specs::Choice::pick, choice::specs::Choice::said, state::specs::Answering::answered, state::specs::Answering::answer_counted))]
#[inline(always)]
pub fn answer_counted(
    responder: Responder,
    points: &[u8; 64],
    k: Kept,
    octets: &mut [u8; 255],
    sda: bool,
    bits: Bits,
    caller: Caller,
    request: Indication,
    out: &mut [u8],
) -> Spoken
    requires { Asked responder k request.head caller.high.now caller.low.now out.old }
    ensures says { Says
        (answer_counted responder points.now (memory k octets.old) sda bits.fcb bits.fcv caller.entry.room
        caller.entry.high.now caller.entry.low.now request.head request.part).memory.kept
        (answer_counted responder points.now (memory k octets.old) sda bits.fcb bits.fcv caller.entry.room
        caller.entry.high.now caller.entry.low.now request.head request.part).events out.old result out.new }
    ensures octets_after { octets.new
        ≡ (answer_counted responder points.now (memory k octets.old) sda bits.fcb bits.fcv caller.entry.room
        caller.entry.high.now caller.entry.low.now request.head request.part).memory.octets }
{
    let h = request.head;
    if news::reserved(h.to) {
        return answers::silent(k, None);
    }
    if memory::repeated(k, h.source, bits) {
        return answer_again(responder, k, octets, out);
    }
    let new = news::new_answer(news::active(points, h.to), sda, caller);
    let x = news::shown(caller.high, caller.low);
    let length = reply::lay_reply(responder, h, new.given, x, out);
    Spoken {
        kept: memory::remember(k, octets, h.source, bits, length, out),
        length,
        wait: responder.wait,
        indication: new.indicated.then_some(request),
    }
}
