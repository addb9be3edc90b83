// A frame's body, DA SA FC unit: its fields and where its data lie, or the first refusal of 8..11. Where the body
// stands and that its checksum holds is left to the reader. The definitions are those of control and frame.
// Assumes nothing.
#![tactic(auto, unfolding(choice::specs::Choice::pick, choice::specs::Choice::less, choice::specs::Choice::same, choice::specs::Choice::said, refusal::specs::Refusal::refused, refusal::specs::Refusal::number, frame::specs::Reading::answered, frame::specs::Reading::extensions, frame::specs::Reading::access_of, frame::specs::Reading::data_at, frame::specs::Reading::head_of, frame::specs::Reading::extended, frame::specs::Reading::misnamed, frame::specs::Reading::body_refusal, frame::specs::Reading::body_answer, frame::specs::Reading::answer), using(crate::proofs::body::Within::lies_within))]

ghost use Rattle.std.specs.Prelude.{◌≡◌, ◌+◌, ◌≤◌, length};
ghost use Rattle.control.specs.Control.{control_of};
ghost use Rattle.frame.specs.Reading.{octet, access_of, data_at, head_of, body_refusal, body_answer, answered};
ghost use Rattle.frame.specs.Reading.{extensions as reading_extensions, extended as reading_extended};
ghost use Rattle.frame.specs.Reading.{misnamed as reading_misnamed};
ghost use Rattle.refusal.specs.Refusal.{refused};

use control::Control;
use frame::{Address, Fields, Head, Part, Point};
use refusal::Refusal;

// How many extension octets an address octet announces.
fn extensions(a: u8) -> usize
    ensures value { result ≡ reading_extensions a }
    ensures upper_bound { result ≤ 1 }
{
    usize::from(127 < a)
}

// The access point that an address octet announces at a place of the body, where its octet is not missing.
fn access_of(b: &[u8], a: u8, i: usize) -> Option<Point>
    requires { i + reading_extensions a ≤ length b.now }
    ensures { result ≡ access_of b.now a i }
{
    if 127 < a { Some(Point(b[i])) } else { None }
}

// Where a body's data begin.
fn data_at(b: &[u8]) -> usize
    requires { 2 ≤ length b.now }
    ensures value { result ≡ data_at b.now }
    ensures upper_bound { result ≤ 5 }
{
    3 + extensions(b[0]) + extensions(b[1])
}

// The fields of a body whose data begin within it, with the control that its FC is read as.
fn head_of(b: &[u8], control: Control) -> Head
    requires { (data_at b.now ≤ length b.now) × (control ≡ control_of (octet b.now 2)) }
    ensures { result ≡ head_of b.now }
{
    let d = b[0];
    let s = b[1];
    let second = 3 + extensions(d);
    let to = access_of(b, d, 3);
    let from = access_of(b, s, second);
    Head {
        destination: Address(d % 128),
        to,
        source: Address(s % 128),
        from,
        control,
    }
}

// Whether an SD1, which has a body of three octets, announces an extension octet.
fn extended(b: &[u8]) -> bool
    ensures { result ≡ reading_extended b.now }
{
    b.len() == 3 && (127 < b[0] || 127 < b[1])
}

// Whether the extension octet that an address octet announces is missing or out of range.
fn misnamed(b: &[u8], a: u8, i: usize, most: u8) -> bool
    ensures { result ≡ reading_misnamed b.now a i most }
{
    127 < a && (b.len() <= i || most < b[i])
}

// The same of the source's, which stands behind the destination's.
fn source_misnamed(b: &[u8], d: u8, s: u8) -> bool
    ensures { result ≡ reading_misnamed b.now s (3 + reading_extensions d) 62 }
{
    misnamed(b, s, 3 + extensions(d), 62)
}

// The refusal 8..11 of a body, if one is due.
fn body_refusal(b: &[u8]) -> Result<(), Refusal>
    requires { 3 ≤ length b.now }
    ensures { refused result ≡ body_refusal b.now }
{
    let d = b[0];
    let s = b[1];
    let control = b[2];
    if s % 128 == 127 || extended(b) {
        return Err(Refusal::Address);
    }
    if !control::listed(control) {
        return Err(Refusal::Control);
    }
    if misnamed(b, d, 3, 63) || source_misnamed(b, d, s) {
        return Err(Refusal::Point);
    }
    if frame::misdirected(d % 128, control) {
        return Err(Refusal::ToAll);
    }
    Ok(())
}

// A body that stands at a place of the string, when its checksum holds.
pub fn body_answer(b: &[u8], start: usize) -> Result<(Fields, Part), Refusal>
    requires { (3 ≤ length b.now) × (start ≤ 4) }
    ensures { answered result ≡ body_answer b.now start }
{
    body_refusal(b)?;
    let head = head_of(b, control::control_of(b[2]));
    let at = data_at(b);
    let part = Part {
        start: start + at,
        count: b.len() - at,
    };
    Ok((Fields::Frame(head), part))
}
