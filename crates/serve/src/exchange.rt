// The request that a record makes, and the frame count mark of its destination. Assumes nothing.
ghost use Rattle.std.specs.Prelude.{◌≡◌, ◌≤◌, [], length, set};
ghost use Rattle.frame.specs.Format.{octets};
ghost use Rattle.laid.specs.Laid.{Lays};
ghost use Rattle.request.specs.Record.{unfit};
ghost use Rattle.state.specs.Request.{fcb_of, fcv_of, mark_of, marks_after, service_of, control_for, head_for};
ghost use Rattle.state.specs.Request.{turned as request_turned};

use control::{Control, Service};
use frame::{Address, Fields, Head};
use request::Record;
use state::{Outcome, Priority};

// FCB and FCV of a mark.
#[tactic(auto, unfolding(choice::specs::Choice::pick, choice::specs::Choice::same, state::specs::Request::fcb_of))]
fn fcb_of(m: u8) -> bool
    ensures { result ≡ fcb_of m }
{
    m != 0
}

#[tactic(auto, unfolding(choice::specs::Choice::pick, choice::specs::Choice::less, state::specs::Request::fcv_of))]
fn fcv_of(m: u8) -> bool
    ensures { result ≡ fcv_of m }
{
    m < 2
}

// The mark after a plausible reply.
#[tactic(auto, unfolding(choice::specs::Choice::pick, choice::specs::Choice::same, state::specs::Request::turned))]
fn turned(m: u8) -> u8
    ensures { result ≡ request_turned m }
{
    if m == 0 { 1 } else { 0 }
}

// The mark of an address, 0 of one that has none.
pub fn mark_of(marks: &[u8; 127], a: Address) -> u8
    ensures { result ≡ mark_of marks.now a.0 }
{
    marks.get(usize::from(a.0)).copied().unwrap_or(0)
}

fn set_mark(marks: &mut [u8; 127], a: Address, m: u8)
    ensures { marks.new ≡ set marks.old a.0 m }
{
    let at = usize::from(a.0);
    if at < marks.len() {
        marks[at] = m;
    }
}

// What a request's end makes of its destination's mark.
#[tactic(auto, unfolding(state::specs::Request::marks_after))]
pub fn mark(o: Outcome, a: Address, marks: &mut [u8; 127])
    ensures { marks.new ≡ marks_after o a.0 marks.old }
{
    match o {
        Outcome::Replied(_) => set_mark(marks, a, turned(mark_of(marks, a))),
        Outcome::Lost => set_mark(marks, a, 2),
        Outcome::Gone => {}
    }
}

// The service of a request, by the queue it stands in.
#[tactic(auto, unfolding(choice::specs::Choice::pick, choice::specs::Choice::same, state::specs::Request::service_of))]
fn service_of(p: Priority, s: u8) -> Service
    ensures { result ≡ service_of p s }
{
    match (p, s) {
        (Priority::High, request::SDA) => Service::SdaHigh,
        (Priority::High, request::SDN) => Service::SdnHigh,
        (Priority::High, _) => Service::SrdHigh,
        (Priority::Low, request::SDA) => Service::SdaLow,
        (Priority::Low, request::SDN) => Service::SdnLow,
        (Priority::Low, _) => Service::SrdLow,
    }
}

#[tactic(auto, unfolding(choice::specs::Choice::pick, choice::specs::Choice::same, state::specs::Request::control_for))]
fn control_for(p: Priority, s: u8, m: u8) -> Control
    ensures { result ≡ control_for p s m }
{
    let service = service_of(p, s);
    let (fcb, fcv) = if s == request::SDN {
        (false, false)
    } else {
        (fcb_of(m), fcv_of(m))
    };
    Control::Request { service, fcb, fcv }
}

// The fields of the request that a record makes, with the mark of its destination.
#[tactic(auto, unfolding(state::specs::Request::head_for))]
fn head_for(ts: Address, p: Priority, r: Record, m: u8) -> Head
    ensures { result ≡ head_for ts p r m }
{
    Head {
        destination: r.destination,
        to: frame::access_of(r.to),
        source: ts,
        from: frame::access_of(r.from),
        control: control_for(p, r.service, m),
    }
}

// Lays a fit request's octets, which the writer does not refuse, and gives their count.
pub fn lay_request(ts: Address, p: Priority, r: Record, m: u8, data: &[u8], out: &mut [u8]) -> usize
    requires { (ts.0 ≤ 126) × ((unfit ts.0 r (length «data».now) ≡ 0) × (255 ≤ length out.old)) }
    ensures { Lays out.old 0 (octets (Fields.Frame (head_for ts p r m)) «data».now) 255 result
        out.new }
{
    let h = head_for(ts, p, r, m);
    write::write_frame(h, data, out).unwrap_or(0)
}

// Lays the token to a station, which the writer does not refuse, and gives its count of octets.
pub fn lay_token(ns: Address, ts: Address, out: &mut [u8]) -> usize
    requires { (ns.0 ≤ 126) × ((ts.0 ≤ 126) × (255 ≤ length out.old)) }
    ensures { Lays out.old 0 (octets (Fields.Token ns ts) []) 255 result out.new }
{
    write::write_token(ns, ts, out).unwrap_or(0)
}
