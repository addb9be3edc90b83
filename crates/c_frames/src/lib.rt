// The reader and the writer for a caller that gives numbers and takes structs of numbers. Only an FC that is not
// listed, which the fields cannot hold, is refused here. Assumes nothing.
#![tactic(auto)]

ghost use Rattle.std.specs.Prelude.{◌≡◌};
ghost use Rattle.frame.specs.Reading.{Refused, Read, read as reading_read};
ghost use Rattle.c_frames.specs.Flat.{flat as flat_flat, flat_written, counted, unlisted as flat_unlisted};
ghost use Rattle.c_frames.specs.Flat.{writes, leaves};

use frame::{Address, Fields, Head, NONE, Part, Point};
use refusal::Refusal;

// What was read: refused is 0 or the refusal; form is 1 for a token, 2 for a short acknowledgement, 3 for a frame.
// Kept: numbers in place of enums, here and below, since C takes them.
#[repr(C)]
#[derive(Clone, Copy)]
pub struct FlatFrame {
    pub refused: u8,
    pub form: u8,
    pub destination: u8,
    pub to: u8,
    pub source: u8,
    pub from: u8,
    pub control: u8,
    pub start: usize,
    pub count: usize,
}

// What was written: refused is 0 or the refusal, and count the octets written.
#[repr(C)]
#[derive(Clone, Copy)]
pub struct FlatWritten {
    pub refused: u8,
    pub count: usize,
}

// Nothing read.
const NOTHING: FlatFrame = FlatFrame {
    refused: 0,
    form: 0,
    destination: 0,
    to: NONE,
    source: 0,
    from: NONE,
    control: 0,
    start: 0,
    count: 0,
};

// A refused reading.
#[tactic(auto, unfolding(crate::specs::Flat::flat))]
pub fn refused(refused: u8) -> FlatFrame
    ensures { result ≡ flat_flat (Refused refused) }
{
    FlatFrame { refused, ..NOTHING }
}

// What was read, by its form.
#[tactic(auto, unfolding(crate::specs::Flat::flat))]
pub fn fields(f: Fields, p: Part) -> FlatFrame
    ensures { result ≡ flat_flat (Read f p) }
{
    let read = FlatFrame {
        start: p.start,
        count: p.count,
        ..NOTHING
    };
    match f {
        Fields::Token {
            destination,
            source,
        } => FlatFrame {
            form: 1,
            destination: destination.0,
            source: source.0,
            ..read
        },
        Fields::Short => FlatFrame { form: 2, ..read },
        Fields::Frame(h) => FlatFrame {
            form: 3,
            destination: h.destination.0,
            to: frame::point_of(h.to),
            source: h.source.0,
            from: frame::point_of(h.from),
            control: control::fc(h.control),
            ..read
        },
    }
}

// An answer of the writer, refused by number.
#[tactic(auto, unfolding(crate::specs::Flat::flat_written, crate::specs::Flat::counted))]
pub fn written(w: Result<usize, u8>) -> FlatWritten
    ensures { result ≡ flat_written (counted w) }
{
    match w {
        Ok(count) => FlatWritten { refused: 0, count },
        Err(refused) => FlatWritten { refused, count: 0 },
    }
}

// The refusal of a frame whose FC is not listed: 8 goes before 9.
#[tactic(auto, unfolding(choice::specs::Choice::pick, choice::specs::Choice::less, refusal::specs::Refusal::number, crate::specs::Flat::flat_written, crate::specs::Flat::counted, crate::specs::Flat::unlisted))]
pub fn unlisted(destination: u8, source: u8) -> FlatWritten
    ensures { result ≡ flat_unlisted destination source }
{
    if 126 < source || 127 < destination {
        written(Err(Refusal::Address.number()))
    } else {
        written(Err(Refusal::Control.number()))
    }
}

// Reads a frame.
#[tactic(auto, unfolding(frame::specs::Reading::answered))]
pub fn reading(octets: &[u8]) -> FlatFrame
    ensures { result ≡ flat_flat (reading_read octets.now) }
{
    match read::read(octets) {
        Ok((f, p)) => fields(f, p),
        Err(r) => refused(r.number()),
    }
}

// Writes a frame with a control octet.
#[tactic(auto, unfolding(choice::specs::Choice::pick, choice::specs::Choice::same, choice::specs::Choice::said, control::specs::Control::listed, frame::specs::Format::wrote, crate::specs::Flat::head_from, crate::specs::Flat::counted, crate::specs::Flat::writes, crate::specs::Flat::leaves))]
pub fn writing(
    destination: u8,
    to: u8,
    source: u8,
    from: u8,
    control: u8,
    data: &[u8],
    out: &mut [u8],
) -> FlatWritten
    ensures value { result ≡ writes destination to source from control «data».now out.old }
    ensures out_after { out.new
        ≡ leaves destination to source from control «data».now out.old }
{
    let c = control::control_of(control);
    if !control::named(c, control) {
        return unlisted(destination, source);
    }
    let h = Head {
        destination: Address(destination),
        to: frame::access_of(Point(to)),
        source: Address(source),
        from: frame::access_of(Point(from)),
        control: c,
    };
    written(write::write_frame(h, data, out).map_err(Refusal::number))
}
