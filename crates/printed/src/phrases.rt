// What replay prints: the words, the parts of a line and the lines, laid into a lent output. Each step gives the place
// behind what it laid; a word or number within a line is laid with a space before it. Assumes nothing.
// Kept: `write!` promises its text only where it gives `Ok`, and no contract of `fmt::Write` says when that is; the
// lines are always laid, octet for octet (refused_line, done_line), into fixed memory.
#![tactic(auto, using(crate::proofs::phrases::Steps::laying))]

ghost use Rattle.std.specs.Prelude.{◌≡◌, ◌+◌, ◌*◌, ◌≤◌, length, Some};
ghost use Rattle.frame.specs.Access.{point_of};
ghost use Rattle.frame.specs.Reading.{part};
ghost use Rattle.laid.specs.Laid.{Lays};
ghost use Rattle.typed.specs.Digits.{shown as digits_shown};
ghost use Rattle.printed.specs.Numeral.{numeral};
ghost use Rattle.printed.specs.Printed.{spaced, service_word, priority_word, point_word, refused_line};
ghost use Rattle.printed.specs.Printed.{sending as printed_sending, ends as printed_ends};
ghost use Rattle.printed.specs.Printed.{indicating as printed_indicating, done_line};

use super::numeral;
use frame::Head;
use state::Indication;
use typed::digits;

// A service's word.
#[tactic(auto, using(crate::proofs::phrases::Steps::laying), unfolding(crate::specs::Printed::service_word))]
fn service_word(n: u8) -> &'static [u8]
    ensures value { result.now ≡ service_word n }
    ensures near { length result.now ≤ 6 }
{
    match n {
        3 | 5 => b"sda",
        4 | 6 => b"sdn",
        12 | 13 => b"srd",
        9 => b"status",
        14 => b"ident",
        15 => b"lsap",
        _ => b"-",
    }
}

// A priority's word.
#[tactic(auto, using(crate::proofs::phrases::Steps::laying), unfolding(crate::specs::Printed::priority_word))]
fn priority_word(n: u8) -> &'static [u8]
    ensures value { result.now ≡ priority_word n }
    ensures near { length result.now ≤ 4 }
{
    match n {
        5 | 6 | 13 => b"high",
        _ => b"low",
    }
}

// Lays a word.
pub fn lay_word(w: &[u8], out: &mut [u8], at: usize) -> usize
    requires { at + (1 + length w.now) ≤ length out.old }
    ensures { Lays out.old at (spaced w.now) (1 + length w.now) result out.new }
{
    let next = laid::lay(b" ", out, at);
    laid::lay(w, out, next)
}

// Lays a service's word.
pub fn service(n: u8, out: &mut [u8], at: usize) -> usize
    requires { at + 7 ≤ length out.old }
    ensures { Lays out.old at (spaced (service_word n)) 7 result out.new }
{
    lay_word(service_word(n), out, at)
}

// Lays a priority's word.
fn priority(n: u8, out: &mut [u8], at: usize) -> usize
    requires { at + 5 ≤ length out.old }
    ensures { Lays out.old at (spaced (priority_word n)) 5 result out.new }
{
    lay_word(priority_word(n), out, at)
}

// Lays the number of an octet.
pub fn number(n: u8, out: &mut [u8], at: usize) -> usize
    requires { at + 4 ≤ length out.old }
    ensures { Lays out.old at (spaced (numeral n)) 4 result out.new }
{
    let next = laid::lay(b" ", out, at);
    numeral::octet(n, out, next)
}

// Lays an access point.
#[tactic(auto, using(crate::proofs::phrases::Steps::laying), unfolding(crate::specs::Printed::point_word))]
pub fn point(n: u8, out: &mut [u8], at: usize) -> usize
    requires { at + 4 ≤ length out.old }
    ensures { Lays out.old at (spaced (point_word n)) 4 result out.new }
{
    if n == 255 {
        laid::lay(b" -", out, at)
    } else {
        number(n, out, at)
    }
}

// Lays a head's two addresses and its access points.
#[tactic(auto, using(crate::proofs::phrases::Steps::laying), unfolding(crate::specs::Printed::ends))]
fn ends(h: Head, out: &mut [u8], at: usize) -> usize
    requires { at + 16 ≤ length out.old }
    ensures { Lays out.old at (printed_ends h.destination.0 h.source.0 (point_of h.to) (point_of h.from)) 16 result
        out.new }
{
    let second = number(h.destination.0, out, at);
    let third = number(h.source.0, out, second);
    let fourth = point(frame::point_of(h.to), out, third);
    point(frame::point_of(h.from), out, fourth)
}

// Lays the octets of a part of a string.
pub fn octets(s: &[u8], start: usize, count: usize, out: &mut [u8], at: usize) -> usize
    requires { at + (2 * length (part s.now start count) + 2) ≤ length out.old }
    ensures { Lays out.old at (spaced (digits_shown (part s.now start count)))
        (2 * length (part s.now start count) + 2) result out.new }
{
    let next = laid::lay(b" ", out, at);
    digits::put_octets(read::part(s, start, count), out, next)
}

// Lays the line of a refusal.
#[tactic(auto, using(crate::proofs::phrases::Steps::laying), unfolding(crate::specs::Printed::refused_line))]
pub fn refused(n: u8, out: &mut [u8], at: usize) -> usize
    requires { at + 19 ≤ length out.old }
    ensures { Lays out.old at (refused_line n) 19 result out.new }
{
    let second = laid::lay(b"refused", out, at);
    let third = number(n, out, second);
    laid::lay(b"\n", out, third)
}

// Lays what was sent, if anything was.
#[tactic(auto, using(crate::proofs::phrases::Steps::laying), unfolding(crate::specs::Printed::sending))]
pub fn sending(wait: u32, x: &[u8], out: &mut [u8], at: usize) -> usize
    requires { at + (2 * length x.now + 18) ≤ length out.old }
    ensures { Lays out.old at (printed_sending wait x.now)
        (2 * length x.now + 18) result out.new }
{
    if x.is_empty() {
        return at;
    }
    let second = laid::lay(b" send ", out, at);
    let third = numeral::put(wait, out, second);
    let fourth = laid::lay(b" ", out, third);
    digits::put_octets(x, out, fourth)
}

// Lays a request that is indicated, with its data.
#[tactic(auto, using(crate::proofs::phrases::Steps::laying), unfolding(crate::specs::Printed::indicating))]
fn indicated(i: Indication, s: &[u8], out: &mut [u8], at: usize) -> usize
    requires { at + (2 * length s.now + 70) ≤ length out.old }
    ensures { Lays out.old at (printed_indicating (Some i) s.now)
        (2 * length s.now + 70) result out.new }
{
    let code = control::fc(i.head.control) % 16;
    let second = laid::lay(b" indicate", out, at);
    let third = service(code, out, second);
    let fourth = priority(code, out, third);
    let fifth = ends(i.head, out, fourth);
    octets(s, i.part.start, i.part.count, out, fifth)
}

// Lays what is indicated, if anything is, with the data of a string.
#[tactic(auto, using(crate::proofs::phrases::Steps::laying), unfolding(crate::specs::Printed::indicating))]
pub fn indicating(i: Option<Indication>, s: &[u8], out: &mut [u8], at: usize) -> usize
    requires { at + (2 * length s.now + 70) ≤ length out.old }
    ensures { Lays out.old at (printed_indicating i s.now)
        (2 * length s.now + 70) result out.new }
{
    match i {
        None => at,
        Some(i) => indicated(i, s, out, at),
    }
}

// Lays the line of frame, sent and slot.
#[tactic(auto, using(crate::proofs::phrases::Steps::laying), unfolding(crate::specs::Printed::done_line))]
pub fn done(
    wait: u32,
    x: &[u8],
    i: Option<Indication>,
    s: &[u8],
    out: &mut [u8],
    at: usize,
) -> usize
    requires { at + (2 * length x.now + 2 * length s.now + 95) ≤ length out.old }
    ensures { Lays out.old at (done_line wait x.now i s.now)
        (2 * length x.now + 2 * length s.now + 95) result out.new }
{
    let second = laid::lay(b"ok", out, at);
    let third = sending(wait, x, out, second);
    let fourth = indicating(i, s, out, third);
    laid::lay(b"\n", out, fourth)
}
