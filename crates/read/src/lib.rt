// The frame reader: the fields of a string of octets and where its data lie, or the first refusal of 1..11. Total on
// every string. The definitions are the frame crate's. Assumes nothing.
#![tactic(auto, unfolding(choice::specs::Choice::pick, choice::specs::Choice::less, choice::specs::Choice::same, choice::specs::Choice::said, refusal::specs::Refusal::number, frame::specs::Reading::answered, frame::specs::Reading::read, frame::specs::Reading::read_sd2, frame::specs::Reading::read_short, frame::specs::Reading::read_token, frame::specs::Reading::mismeasured, frame::specs::Reading::plain), using(crate::proofs::Measured::measures))]

ghost use Rattle.std.specs.Prelude.{◌≡◌, ◌+◌, ◌≤◌, length};
ghost use Rattle.frame.specs.Reading.{answered, read_body, read_token};
ghost use Rattle.frame.specs.Reading.{part as reading_part, mismeasured as reading_mismeasured, read as reading_read};

mod body;

use frame::{Address, ED, Fields, Part, SC, SD1, SD2, SD3, SD4};
use refusal::Refusal;

// The octets from a place on, count of them or as many as there are, as a part of the caller's string.
pub fn part(s: &[u8], start: usize, count: usize) -> &[u8]
    ensures { result.now ≡ reading_part s.now start count }
{
    if s.len() < start {
        return &s[..0];
    }
    if s.len() - start < count {
        return &s[start..];
    }
    &s[start..start + count]
}

// A frame whose body is the n octets from a place.
#[tactic(auto, unfolding(choice::specs::Choice::pick, choice::specs::Choice::same, refusal::specs::Refusal::number, frame::specs::Reading::answered, frame::specs::Reading::read_body))]
fn read_body(s: &[u8], start: usize, n: usize) -> Result<(Fields, Part), Refusal>
    requires { (start ≤ 4) × (3 ≤ n) × (n ≤ 255) }
    ensures { answered result ≡ read_body s.now start n }
{
    let end = start + n;
    if s.len() != end + 2 {
        return Err(Refusal::Count);
    }
    if s[end + 1] != ED {
        return Err(Refusal::End);
    }
    let b = part(s, start, n);
    if s[end] != frame::fcs(b) {
        return Err(Refusal::Checksum);
    }
    body::body_answer(b, start)
}

// Whether LE, its repeat and the fourth octet of an SD2 are out of rule.
fn mismeasured(le: u8, repeat: u8, fourth: u8) -> bool
    ensures { result ≡ reading_mismeasured le repeat fourth }
{
    !matches!(le, 4..=249) || le != repeat || fourth != SD2
}

fn read_token(s: &[u8]) -> Result<(Fields, Part), Refusal>
    ensures { answered result ≡ read_token s.now }
{
    let &[_, d, a] = s else {
        return Err(Refusal::Count);
    };
    if 126 < d || 126 < a {
        return Err(Refusal::Address);
    }
    let fields = Fields::Token {
        destination: Address(d),
        source: Address(a),
    };
    Ok((fields, Part { start: 0, count: 0 }))
}

// What a string of octets is read as. A form that has a body tells where it stands, and then all are read alike.
pub fn read(s: &[u8]) -> Result<(Fields, Part), Refusal>
    ensures { answered result ≡ reading_read s.now }
{
    let (start, n) = match *s {
        [] => return Err(Refusal::Empty),
        [SD1, ..] => (1, 3),
        [SD2, le, repeat, fourth, ..] => {
            if mismeasured(le, repeat, fourth) {
                return Err(Refusal::Length);
            }
            (4, usize::from(le))
        }
        [SD2, ..] => return Err(Refusal::Short),
        [SD3, ..] => (1, 11),
        [SD4, ..] => return read_token(s),
        [SC] => return Ok((Fields::Short, Part { start: 0, count: 0 })),
        [SC, ..] => return Err(Refusal::Count),
        _ => return Err(Refusal::NoStart),
    };
    read_body(s, start, n)
}
