// The lines of collect and of show, laid into a lent output. Each step gives the place behind what it laid.
// Assumes nothing.
// Kept: `write!` promises its text only where it gives `Ok`, and no contract of `fmt::Write` says when that is; the
// lines are always laid, octet for octet (collected_line, shown_line), into fixed memory.
#![tactic(auto, using(printed::proofs::phrases::Steps::laying))]

ghost use Rattle.std.specs.Prelude.{true, ◌++◌, ◌≡◌, ◌+◌, ◌*◌, ◌≤◌, length};
ghost use Rattle.choice.specs.Choice.{pick};
ghost use Rattle.frame.specs.Reading.{part};
ghost use Rattle.laid.specs.Laid.{Lays};
ghost use Rattle.typed.specs.Digits.{shown as digits_shown};
ghost use Rattle.queue.specs.Queue.{AREA};
ghost use Rattle.printed.specs.Numeral.{numeral};
ghost use Rattle.printed.specs.Printed.{spaced, newline, comma, status_word, phase_word, point_word};
ghost use Rattle.printed.specs.Printed.{referring, collected_line, joined as printed_joined, ns_of, shown_line};
ghost use Rattle.printed.specs.Printed.{counts as printed_counts};

use frame::Address;
use printed::{numeral, phrases};
use queue::Queue;
use request::Record;
use state::{Core, Phase};

// A status's word.
#[tactic(auto, using(printed::proofs::phrases::Steps::laying), unfolding(printed::specs::Printed::status_word))]
fn status_word(n: u8) -> &'static [u8]
    ensures value { result.now ≡ status_word n }
    ensures near { length result.now ≤ 3 }
{
    match n {
        0 => b"OK",
        1 => b"UE",
        2 => b"RR",
        3 => b"RS",
        9 => b"NR",
        8 => b"DL",
        10 => b"DH",
        12 => b"RDL",
        13 => b"RDH",
        16 => b"NA",
        17 => b"DS",
        _ => b"-",
    }
}

// Lays a status's word.
fn status(n: u8, out: &mut [u8], at: usize) -> usize
    requires { at + 4 ≤ length out.old }
    ensures { Lays out.old at (spaced (status_word n)) 4 result out.new }
{
    phrases::lay_word(status_word(n), out, at)
}

// A phase's word.
#[tactic(auto, using(printed::proofs::phrases::Steps::laying), unfolding(printed::specs::Printed::phase_word))]
fn phase_word(p: Phase) -> &'static [u8]
    ensures value { result.now ≡ phase_word p }
    ensures near { length result.now ≤ 7 }
{
    match p {
        Phase::Idle => b"idle",
        Phase::Awaited => b"awaited",
        Phase::Sdn => b"sdn",
        Phase::Check => b"check",
        Phase::ToSelf => b"self",
    }
}

// Lays a phase's word.
fn phase(p: Phase, out: &mut [u8], at: usize) -> usize
    requires { at + 8 ≤ length out.old }
    ensures { Lays out.old at (spaced (phase_word p)) 8 result out.new }
{
    phrases::lay_word(phase_word(p), out, at)
}

// Lays a request's reference, unless that is 0, and the line's end.
#[tactic(auto, using(printed::proofs::phrases::Steps::laying), unfolding(printed::specs::Printed::referring))]
fn closing(reference: u32, out: &mut [u8], at: usize) -> usize
    requires { at + 16 ≤ length out.old }
    ensures { Lays out.old at (referring reference ++ newline) 16 result out.new }
{
    if reference == 0 {
        return laid::lay(b"\n", out, at);
    }
    let second = laid::lay(b" ref ", out, at);
    let third = numeral::put(reference, out, second);
    laid::lay(b"\n", out, third)
}

// Lays how a request ended: its status, the count of its sendings, its data, its reference, and the line's end.
fn ending(place: u8, r: Record, area: &[u8], out: &mut [u8], at: usize) -> usize
    requires { at + 536 ≤ length out.old }
    ensures { Lays out.old at
        (spaced (status_word r.status) ++
        (spaced (numeral r.count) ++
        (spaced (digits_shown (part area.now (AREA * place) r.length)) ++
        (referring r.reference ++ newline)))) 536 result out.new }
{
    let second = status(r.status, out, at);
    let third = phrases::number(r.count, out, second);
    let start = queue::AREA * usize::from(place);
    let fourth = phrases::octets(area, start, usize::from(r.length), out, third);
    closing(r.reference, out, fourth)
}

// Lays where a request went and how it ended.
fn ended(place: u8, r: Record, area: &[u8], out: &mut [u8], at: usize) -> usize
    requires { at + 548 ≤ length out.old }
    ensures { Lays out.old at
        (spaced (numeral r.destination.0) ++
        (spaced (point_word r.to.0) ++
        (spaced (point_word r.from.0) ++
        (spaced (status_word r.status) ++
        (spaced (numeral r.count) ++
        (spaced (digits_shown (part area.now (AREA * place) r.length)) ++
        (referring r.reference ++ newline))))))) 548 result out.new }
{
    let second = phrases::number(r.destination.0, out, at);
    let third = phrases::point(r.to.0, out, second);
    let fourth = phrases::point(r.from.0, out, third);
    ending(place, r, area, out, fourth)
}

// Lays the line of collect.
#[tactic(auto, using(printed::proofs::phrases::Steps::laying), unfolding(printed::specs::Printed::collected_line))]
pub fn collected(place: u8, r: Record, area: &[u8], out: &mut [u8], at: usize) -> usize
    requires { at + 600 ≤ length out.old }
    ensures { Lays out.old at (collected_line place r area.now) 600 result out.new }
{
    let second = laid::lay(b"ok", out, at);
    let third = phrases::number(place, out, second);
    let fourth = phrases::service(r.service, out, third);
    ended(place, r, area, out, fourth)
}

// Lays a master, the first of all without a comma.
fn entry(first: bool, a: u8, out: &mut [u8], at: usize) -> usize
    requires { at + 4 ≤ length out.old }
    ensures { Lays out.old at (pick first (numeral a) (comma ++ numeral a)) 4 result out.new }
{
    let next = if first { at } else { laid::lay(b",", out, at) };
    numeral::octet(a, out, next)
}

// Lays the masters, ascending.
#[tactic(auto, using(crate::proofs::shown::Masters::walk))]
fn joined(masters: &[u8; 127], out: &mut [u8], at: usize) -> usize
    requires { at + 508 ≤ length out.old }
    ensures { Lays out.old at (printed_joined true 127 0 masters.now) 508 result
        out.new }
{
    let mut w = at;
    let mut first = true;
    for a in 0..127 {
        if ring::member(masters, Address(a)) {
            w = entry(first, a, out, w);
            first = false;
        }
    }
    w
}

// NS of a station, its own address if that is none of a station.
#[tactic(auto, unfolding(choice::specs::Choice::pick, choice::specs::Choice::less, printed::specs::Printed::ns_of))]
fn ns_of(masters: &[u8; 127], ts: Address) -> u8
    ensures { result ≡ ns_of masters.now ts.0 }
{
    if ts.0 < 127 {
        ring::next(masters, ts).0
    } else {
        ts.0
    }
}

// Lays the two counts of a queue, confirmed and then not.
#[tactic(auto, using(printed::proofs::phrases::Steps::laying), unfolding(printed::specs::Printed::counts))]
fn counts(q: Queue, out: &mut [u8], at: usize) -> usize
    requires { at + 8 ≤ length out.old }
    ensures { Lays out.old at (printed_counts q) 8 result out.new }
{
    let next = phrases::number(q.confirmed, out, at);
    phrases::number(q.unconfirmed, out, next)
}

// Lays the masters and the counts of both queues, and the line's end.
fn listed(c: Core, masters: &[u8; 127], out: &mut [u8], at: usize) -> usize
    requires { at + 526 ≤ length out.old }
    ensures { Lays out.old at
        (spaced (printed_joined true 127 0 masters.now) ++ (printed_counts c.high ++ (printed_counts c.low ++ newline)))
        526 result out.new }
{
    let second = laid::lay(b" ", out, at);
    let third = joined(masters, out, second);
    let fourth = counts(c.high, out, third);
    let fifth = counts(c.low, out, fourth);
    laid::lay(b"\n", out, fifth)
}

// Lays the line of show.
#[tactic(auto, using(printed::proofs::phrases::Steps::laying), unfolding(printed::specs::Printed::shown_line))]
pub fn shown(c: Core, masters: &[u8; 127], out: &mut [u8], at: usize) -> usize
    requires { at + 700 ≤ length out.old }
    ensures { Lays out.old at (shown_line c masters.now) 700 result out.new }
{
    let second = laid::lay(b"ok", out, at);
    let third = phase(c.doing.phase, out, second);
    let fourth = phrases::number(c.ts.0, out, third);
    let fifth = phrases::number(c.ps.0, out, fourth);
    let sixth = phrases::number(ns_of(masters, c.ts), out, fifth);
    listed(c, masters, out, sixth)
}
