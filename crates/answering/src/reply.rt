// The reply's octets: its fields, and what is laid of it into the output. Assumes nothing.
ghost use Rattle.std.specs.Prelude.{◌≡◌, ◌≤◌, [], length};
ghost use Rattle.frame.specs.Format.{octets};
ghost use Rattle.laid.specs.Laid.{Lays};
ghost use Rattle.state.specs.Answering.{UPDATE, Answerable, reply_octets};
ghost use Rattle.state.specs.Answering.{reply_head as answering_reply_head, carries as answering_carries};

use control::{Code, Control};
use frame::{Fields, Head};
use state::{Given, Responder};

// The fields of a reply to a request: its sender and access points swapped, and the responder's type.
#[tactic(auto, unfolding(state::specs::Answering::reply_head))]
fn reply_head(responder: Responder, h: Head, code: Code) -> Head
    ensures { result ≡ answering_reply_head responder h code }
{
    Head {
        destination: h.source,
        to: h.from,
        source: responder.ts,
        from: h.to,
        control: Control::Reply {
            kind: responder.kind,
            code,
        },
    }
}

// Whether a reply of a code carries data.
#[tactic(auto, unfolding(state::specs::Answering::carries))]
fn carries(k: Code) -> bool
    ensures { result ≡ answering_carries k }
{
    matches!(k, Code::Dl | Code::Dh | Code::Rdl | Code::Rdh)
}

// Lays a reply with a code and its data, which the writer never refuses.
fn lay_coded(responder: Responder, h: Head, code: Code, data: &[u8], out: &mut [u8]) -> usize
    requires { (responder.ts.0 ≤ 126)
        × ((Answerable h) × ((length «data».now ≤ UPDATE) × (255 ≤ length out.old))) }
    ensures { Lays out.old 0
        (octets (Fields.Frame (answering_reply_head responder h code)) «data».now) 255 result out.new }
{
    write::write_frame(reply_head(responder, h, code), data, out).unwrap_or(0)
}

// Lays a short acknowledgement, which the writer never refuses.
fn lay_short(out: &mut [u8]) -> usize
    requires { 255 ≤ length out.old }
    ensures { Lays out.old 0 (octets Fields.Short []) 255 result out.new }
{
    write::write_short(out).unwrap_or(0)
}

// Lays what is given to a request, and gives its count of octets.
#[tactic(auto, unfolding(choice::specs::Choice::pick, state::specs::Answering::reply_octets))]
#[inline(always)]
pub fn lay_reply(responder: Responder, h: Head, g: Given, x: &[u8], out: &mut [u8]) -> usize
    requires { (responder.ts.0 ≤ 126)
        × ((Answerable h) × ((length x.now ≤ UPDATE) × (255 ≤ length out.old))) }
    ensures { Lays out.old 0 (reply_octets responder h g x.now) 255 result out.new }
{
    match g {
        Given::Acknowledged => lay_short(out),
        Given::Coded(code) if carries(code) => lay_coded(responder, h, code, x, out),
        Given::Coded(code) => lay_coded(responder, h, code, b"", out),
    }
}
