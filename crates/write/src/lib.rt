// The frame writer: a frame's fields and data as octets at the start of a lent output, or the first refusal of
// 8..13 and the output as it was. The octets are added up as they are laid: the output is never read. The definitions
// are the frame crate's. Assumes nothing.
#![tactic(auto)]

ghost use Rattle.std.specs.Prelude.{◌≡◌, ◌+◌, ◌<◌, ◌≤◌, [], ◌∷◌, length};
ghost use Rattle.choice.specs.Choice.{pick, same};
ghost use Rattle.control.specs.Control.{fc};
ghost use Rattle.frame.specs.Format.{unit, body, unwritable_frame, written, left, wrote};
ghost use Rattle.frame.specs.Format.{extension as format_extension, addressed as format_addressed};
ghost use Rattle.frame.specs.Format.{outside as format_outside, SD1 as format_sd1, SD2 as format_sd2, ED as format_ed};
ghost use Rattle.laid.specs.Laid.{laid, Lays};
ghost use Rattle.refusal.specs.Refusal.{refused};
ghost use Rattle.write.specs.Adding.{Adds};

use frame::{Address, ED, Fields, Head, Point, SC, SD1, SD2, SD4};
use refusal::Refusal;

// How many extension octets an access point has.
#[tactic(auto, unfolding(frame::specs::Format::extension))]
fn extensions(a: Option<Point>) -> usize
    ensures value { result ≡ length (format_extension a) }
    ensures upper_bound { result ≤ 1 }
{
    usize::from(a.is_some())
}

// How many octets the unit has.
#[tactic(auto, using(crate::proofs::Answers::lengths))]
fn units(h: Head, data: &[u8]) -> usize
    ensures { result ≡ length (unit h «data».now) }
{
    extensions(h.to) + extensions(h.from) + data.len()
}

// Whether an access point is over the greatest number of its side.
#[tactic(auto, unfolding(choice::specs::Choice::pick, choice::specs::Choice::less, frame::specs::Format::outside))]
fn outside(a: Option<Point>, most: u8) -> bool
    ensures { result ≡ format_outside a most }
{
    a.is_some_and(|p| most < p.0)
}

// The refusal of a frame's fields and FC with a unit of that many octets, if one is due.
#[tactic(auto, unfolding(choice::specs::Choice::pick, choice::specs::Choice::less, choice::specs::Choice::said, refusal::specs::Refusal::refused, refusal::specs::Refusal::number, frame::specs::Format::unwritable_frame), using(crate::proofs::Answers::listing))]
fn refusal(h: Head, control: u8, units: usize) -> Result<(), Refusal>
    requires { control ≡ fc h.control }
    ensures { refused result ≡ unwritable_frame h units }
{
    let destination = h.destination.0;
    if 126 < h.source.0 || 127 < destination {
        return Err(Refusal::Address);
    }
    if !control::lawful(h.control) {
        return Err(Refusal::Control);
    }
    if outside(h.to, 63) || outside(h.from, 62) {
        return Err(Refusal::Point);
    }
    if frame::misdirected(destination, control) {
        return Err(Refusal::ToAll);
    }
    if 246 < units {
        return Err(Refusal::Unit);
    }
    Ok(())
}

// DA or SA of an address.
#[tactic(auto, unfolding(frame::specs::Format::addressed, frame::specs::Format::announce))]
fn addressed(n: u8, a: Option<Point>) -> u8
    requires { n ≤ 127 }
    ensures { result ≡ format_addressed n a }
{
    if a.is_some() { n + 128 } else { n }
}

// How far a body is laid: the place behind its last octet, and the sum of its octets modulo 256.
#[derive(Clone, Copy)]
struct Tally {
    at: usize,
    sum: u8,
}

// Lays one octet behind those laid, and adds it up.
fn lay_octet(x: u8, out: &mut [u8], t: Tally) -> Tally
    requires { t.at < length out.old }
    ensures { Adds out.old t (x ∷ []) result out.new }
{
    out[t.at] = x;
    Tally {
        at: t.at + 1,
        sum: t.sum.wrapping_add(x),
    }
}

// Lays an access point's extension octet, if it has one.
#[tactic(auto, unfolding(frame::specs::Format::extension))]
fn lay_extension(a: Option<Point>, out: &mut [u8], t: Tally) -> Tally
    requires { t.at + length (format_extension a) ≤ length out.old }
    ensures { Adds out.old t (format_extension a) result out.new }
{
    match a {
        None => t,
        Some(p) => lay_octet(p.0, out, t),
    }
}

// Lays the data: one loop copies them and adds them up. It runs over numbers alone, so that it compiles to vector code.
fn lay_data(data: &[u8], out: &mut [u8], t: Tally) -> Tally
    requires { t.at + length «data».now ≤ length out.old }
    ensures { Adds out.old t «data».now result out.new }
{
    let mut sum = t.sum;
    for (i, x) in data.iter().enumerate() {
        out[t.at + i] = *x;
        sum = sum.wrapping_add(*x);
    }
    Tally {
        at: t.at + data.len(),
        sum,
    }
}

// Lays the unit: the extension octets, then the data.
fn lay_unit(h: Head, data: &[u8], out: &mut [u8], t: Tally) -> Tally
    requires { t.at + length (unit h «data».now) ≤ length out.old }
    ensures { Adds out.old t (unit h «data».now) result out.new }
{
    let second = lay_extension(h.to, out, t);
    let third = lay_extension(h.from, out, second);
    lay_data(data, out, third)
}

// Lays DA SA FC unit from a place on.
fn lay_body(h: Head, control: u8, data: &[u8], out: &mut [u8], at: usize) -> Tally
    requires control_value { control ≡ fc h.control }
    requires destination_bound { (h.destination.0 ≤ 127) × (h.source.0 ≤ 126) }
    requires data_in_bounds { at + length (body h «data».now) ≤ length out.old }
    ensures { Adds out.old (record { at = at; sum = 0 }) (body h «data».now) result
        out.new }
{
    let first = lay_octet(addressed(h.destination.0, h.to), out, Tally { at, sum: 0 });
    let second = lay_octet(addressed(h.source.0, h.from), out, first);
    let third = lay_octet(control, out, second);
    lay_unit(h, data, out, third)
}

// Lays FCS 16 behind a body.
#[tactic(auto, using(crate::proofs::Frame::stores))]
fn close(out: &mut [u8], t: Tally)
    requires { t.at + 2 ≤ length out.old }
    ensures { out.new ≡ laid out.old t.at (t.sum ∷ (format_ed ∷ [])) }
{
    out[t.at] = t.sum;
    out[t.at + 1] = ED;
}

// Lays the start octets of a frame whose body has n octets, and gives the place behind them.
#[tactic(auto, unfolding(choice::specs::Choice::pick, choice::specs::Choice::same), using(crate::proofs::Frame::start_one, crate::proofs::Frame::start_four))]
fn lay_start(out: &mut [u8], n: u8) -> usize
    requires { 4 ≤ length out.old }
    ensures { Lays out.old 0
        (pick (same n 3) (format_sd1 ∷ []) (format_sd2 ∷ (n ∷ (n ∷ (format_sd2 ∷ []))))) 4 result out.new }
{
    if n == 3 {
        out[0] = SD1;
        return 1;
    }
    out[0] = SD2;
    out[1] = n;
    out[2] = n;
    out[3] = SD2;
    4
}

// How many octets a frame has whose unit has n.
#[tactic(auto, unfolding(choice::specs::Choice::pick, choice::specs::Choice::same))]
fn octets(n: usize) -> usize
    requires { n ≤ 246 }
    ensures { result ≡ pick (same n 0) 6 (n + 9) }
{
    if n == 0 { 6 } else { n + 9 }
}

// A frame with a control octet: SD1 for an empty unit, else SD2.
#[tactic(auto, unfolding(choice::specs::Choice::pick, choice::specs::Choice::same, refusal::specs::Refusal::refused, refusal::specs::Refusal::number, frame::specs::Format::wrote, frame::specs::Format::written, frame::specs::Format::left, frame::specs::Format::refused, frame::specs::Format::unwritable), using(crate::proofs::Answers::lengths))]
pub fn write_frame(h: Head, data: &[u8], out: &mut [u8]) -> Result<usize, Refusal>
    ensures value { wrote result ≡ written (Fields.Frame h) «data».now out.old }
    ensures out_after { out.new ≡ left (Fields.Frame h) «data».now out.old }
{
    let n = units(h, data);
    let control = control::fc(h.control);
    refusal(h, control, n)?;
    let count = octets(n);
    if out.len() < count {
        return Err(Refusal::Output);
    }
    let at = lay_start(out, (n + 3) as u8);
    let t = lay_body(h, control, data, out, at);
    close(out, t);
    Ok(count)
}

// A token.
#[tactic(auto, unfolding(choice::specs::Choice::pick, choice::specs::Choice::less, choice::specs::Choice::same, refusal::specs::Refusal::number, frame::specs::Format::wrote, frame::specs::Format::written, frame::specs::Format::left, frame::specs::Format::refused, frame::specs::Format::octets, frame::specs::Format::unwritable, frame::specs::Format::unwritable_token), using(crate::proofs::Frame::stores))]
pub fn write_token(destination: Address, source: Address, out: &mut [u8]) -> Result<usize, Refusal>
    ensures value { wrote result ≡ written (Fields.Token destination source) [] out.old }
    ensures out_after { out.new ≡ left (Fields.Token destination source) [] out.old }
{
    if 126 < destination.0 || 126 < source.0 {
        return Err(Refusal::Address);
    }
    if out.len() < 3 {
        return Err(Refusal::Output);
    }
    out[0] = SD4;
    out[1] = destination.0;
    out[2] = source.0;
    Ok(3)
}

// A short acknowledgement.
#[tactic(auto, unfolding(choice::specs::Choice::pick, choice::specs::Choice::less, choice::specs::Choice::same, refusal::specs::Refusal::number, frame::specs::Format::wrote, frame::specs::Format::written, frame::specs::Format::left, frame::specs::Format::refused, frame::specs::Format::octets, frame::specs::Format::unwritable), using(crate::proofs::Frame::stores))]
pub fn write_short(out: &mut [u8]) -> Result<usize, Refusal>
    ensures value { wrote result ≡ written Fields.Short [] out.old }
    ensures out_after { out.new ≡ left Fields.Short [] out.old }
{
    if out.is_empty() {
        return Err(Refusal::Output);
    }
    out[0] = SC;
    Ok(1)
}
