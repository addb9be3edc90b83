// One line of the lister: a body's index and what the body is, as text laid into a lent output. Assumes nothing.
ghost use Rattle.std.specs.Prelude.{◌≡◌, ◌+◌, ◌≤◌, length};
ghost use Rattle.frame.specs.Reading.{Refused, Read, read as reading_read};
ghost use Rattle.refusal.specs.Refusal.{number as refusal_number};
ghost use Rattle.laid.specs.Laid.{Lays};
ghost use Rattle.capture.specs.Line.{decimal, digit as line_digit, kind as line_kind};
ghost use Rattle.capture.specs.Line.{addresses as line_addresses, told, line as line_line};

use control::Control;
use frame::{Address, Fields, Head, Part};
use refusal::Refusal;

// The last decimal digit of a number, in ASCII.
#[tactic(auto, unfolding(crate::specs::Line::digit))]
fn digit(n: usize) -> u8
    ensures { result ≡ line_digit n }
{
    48 + (n % 10) as u8
}

// Lays a number in decimal, and gives the place behind it.
#[tactic(auto, unfolding(choice::specs::Choice::pick, choice::specs::Choice::less, crate::specs::Line::decimal), using(crate::proofs::line::Steps::stores))]
fn number(n: usize, out: &mut [u8], at: usize) -> usize
    requires { at + 4 ≤ length out.old }
    ensures { Lays out.old at (decimal n) 4 result out.new }
{
    match n {
        0..=9 => {
            out[at] = digit(n);
            at + 1
        }
        10..=99 => {
            out[at] = digit(n / 10);
            out[at + 1] = digit(n);
            at + 2
        }
        100..=999 => {
            out[at] = digit(n / 100);
            out[at + 1] = digit(n / 10);
            out[at + 2] = digit(n);
            at + 3
        }
        _ => {
            out[at] = digit(n / 1000);
            out[at + 1] = digit(n / 100);
            out[at + 2] = digit(n / 10);
            out[at + 3] = digit(n);
            at + 4
        }
    }
}

// Lays two addresses and a space between them.
fn addresses(destination: u8, source: u8, out: &mut [u8], at: usize) -> usize
    requires { at + 9 ≤ length out.old }
    ensures { Lays out.old at (line_addresses destination source) 9 result out.new }
{
    let second = number(usize::from(destination), out, at);
    let third = laid::lay(b" ", out, second);
    number(usize::from(source), out, third)
}

// Lays what kind of frame a control makes.
#[tactic(auto, unfolding(crate::specs::Line::kind), using(crate::proofs::line::Steps::steps))]
fn kind(c: Control, out: &mut [u8], at: usize) -> usize
    requires { at + 9 ≤ length out.old }
    ensures { Lays out.old at (line_kind c) 9 result out.new }
{
    match c {
        Control::Request { .. } => laid::lay(b" request ", out, at),
        Control::Reply { .. } => laid::lay(b" reply ", out, at),
    }
}

// Lays what a line says of a refusal.
fn refused(r: Refusal, out: &mut [u8], at: usize) -> usize
    requires { at + 30 ≤ length out.old }
    ensures { Lays out.old at (told (Refused (refusal_number r))) 30 result out.new }
{
    let second = laid::lay(b" bad ", out, at);
    let third = number(usize::from(r.number()), out, second);
    laid::lay(b"\n", out, third)
}

// Lays what a line says of a token.
fn token(destination: Address, source: Address, p: Part, out: &mut [u8], at: usize) -> usize
    requires { at + 30 ≤ length out.old }
    ensures { Lays out.old at (told (Read (Fields.Token destination source) p)) 30 result
        out.new }
{
    let second = laid::lay(b" token ", out, at);
    let third = addresses(destination.0, source.0, out, second);
    laid::lay(b"\n", out, third)
}

// Lays what a line says of a frame with a control octet.
fn framed(h: Head, p: Part, out: &mut [u8], at: usize) -> usize
    requires { at + 30 ≤ length out.old }
    ensures { Lays out.old at (told (Read (Fields.Frame h) p)) 30 result out.new }
{
    let code = control::fc(h.control) % 16;
    let second = kind(h.control, out, at);
    let third = addresses(h.destination.0, h.source.0, out, second);
    let fourth = laid::lay(b" ", out, third);
    let fifth = number(usize::from(code), out, fourth);
    let sixth = laid::lay(b" ", out, fifth);
    let seventh = number(p.count, out, sixth);
    laid::lay(b"\n", out, seventh)
}

// Lays what a line says of a body's fields.
#[tactic(auto, unfolding(crate::specs::Line::told), using(crate::proofs::line::Steps::steps))]
fn accepted(f: Fields, p: Part, out: &mut [u8], at: usize) -> usize
    requires { at + 30 ≤ length out.old }
    ensures { Lays out.old at (told (Read f p)) 30 result out.new }
{
    match f {
        Fields::Token {
            destination,
            source,
        } => token(destination, source, p, out, at),
        Fields::Short => laid::lay(b" short\n", out, at),
        Fields::Frame(h) => framed(h, p, out, at),
    }
}

// Lays what a line says of a body.
#[tactic(auto, unfolding(frame::specs::Reading::answered))]
fn answered(body: &[u8], out: &mut [u8], at: usize) -> usize
    requires { at + 30 ≤ length out.old }
    ensures { Lays out.old at (told (reading_read body.now)) 30 result out.new }
{
    match read::read(body) {
        Err(r) => refused(r, out, at),
        Ok((f, p)) => accepted(f, p, out, at),
    }
}

// Lays the line of a body, of at most 34 octets, and gives the place behind it.
pub fn line(index: usize, body: &[u8], out: &mut [u8], at: usize) -> usize
    requires { at + 34 ≤ length out.old }
    ensures { Lays out.old at (line_line index body.now) 34 result out.new }
{
    let second = number(index, out, at);
    answered(body, out, second)
}
