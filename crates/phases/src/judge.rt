// What a good frame is to the request whose reply is awaited: plausible, in vain, or a request or token. Assumes
// nothing.
#![tactic(auto, unfolding(choice::specs::Choice::pick, choice::specs::Choice::same, choice::specs::Choice::less, choice::specs::Choice::said, control::specs::Control::code_number, state::specs::Request::swapped, state::specs::Request::returned, state::specs::Request::answers_sda, state::specs::Request::answers_srd, state::specs::Request::answers, state::specs::Request::judged_by, state::specs::Request::judged))]

ghost use Rattle.std.specs.Prelude.{◌≡◌};
ghost use Rattle.choice.specs.Choice.{pick, same};
ghost use Rattle.state.specs.Request.{answers_sda, answers_srd, judged_by};
ghost use Rattle.state.specs.Request.{swapped as request_swapped, returned as request_returned};
ghost use Rattle.state.specs.Request.{answers as request_answers, judged as request_judged};

use control::{Code, Control};
use frame::{Address, Fields, Head};
use request::Record;
use state::Verdict;

// Whether a reply's access points are the request's, swapped.
fn swapped(r: Record, h: Head) -> bool
    ensures { result ≡ request_swapped r h }
{
    frame::point_of(h.to) == r.from.0 && frame::point_of(h.from) == r.to.0
}

// Whether a reply comes to TS from the request's destination, access points swapped.
fn returned(ts: Address, r: Record, h: Head) -> bool
    ensures { result ≡ request_returned ts.0 r h }
{
    h.destination == ts && h.source == r.destination && swapped(r, h)
}

// Whether a code with n octets of data answers an SDA, and whether it answers an SRD.
fn answers_sda(k: Code, n: usize) -> bool
    ensures { result ≡ answers_sda k n }
{
    match k {
        Code::Ok | Code::Ue | Code::Rr | Code::Rs => n == 0,
        Code::Dl | Code::Nr | Code::Dh | Code::Rdl | Code::Rdh => false,
    }
}

fn answers_srd(k: Code, n: usize) -> bool
    ensures { result ≡ answers_srd k n }
{
    match k {
        Code::Ok => false,
        Code::Ue | Code::Rr | Code::Rs | Code::Nr => n == 0,
        Code::Dl | Code::Dh | Code::Rdl | Code::Rdh => 0 < n,
    }
}

fn answers(service: u8, k: Code, n: usize) -> bool
    ensures { result ≡ request_answers service k n }
{
    if service == request::SDA {
        answers_sda(k, n)
    } else {
        answers_srd(k, n)
    }
}

fn judge_frame(ts: Address, r: Record, h: Head, n: usize) -> Verdict
    ensures { result ≡ judged_by ts.0 r h n h.control }
{
    match h.control {
        Control::Request { .. } => Verdict::Foreign,
        Control::Reply { code, .. } if returned(ts, r, h) && answers(r.service, code, n) => {
            Verdict::Plausible(control::code_number(code))
        }
        Control::Reply { .. } => Verdict::Vain,
    }
}

// A short acknowledgement is OK to an SDA, and NR to an SRD.
fn judge_short(service: u8) -> Verdict
    ensures { result ≡ Verdict.Plausible (pick (same service 3) 0 9) }
{
    if service == request::SDA {
        Verdict::Plausible(control::code_number(Code::Ok))
    } else {
        Verdict::Plausible(control::code_number(Code::Nr))
    }
}

// What a good frame with n octets of data is to a request of station TS.
pub fn judge(ts: Address, r: Record, f: Fields, n: usize) -> Verdict
    ensures { result ≡ request_judged ts.0 r f n }
{
    match f {
        Fields::Token { .. } => Verdict::Foreign,
        Fields::Short => judge_short(r.service),
        Fields::Frame(h) => judge_frame(ts, r, h, n),
    }
}
