// The lines of an input that comes in blocks, gathered one at a time in memory that does not grow. Assumes nothing.
#![tactic(auto)]

ghost use Rattle.std.specs.Prelude.{◌≡◌, ◌≤◌, ◌==◌, not, length, drop};
ghost use Rattle.std.specs.List.{prefix_len};
ghost use Rattle.typed_lines.specs.Intake.{ROOM as intake_room, Gathers};

const NEWLINE: u8 = b'\n';

const ROOM: usize = 4097;

// What was gathered: the place in the block where the next line begins, how many octets of the line are kept, and
// whether its end was met.
#[derive(Clone, Copy)]
pub struct Gathered {
    pub next: usize,
    pub count: usize,
    pub whole: bool,
}

// The octets of a block from a place on: none behind its end.
fn rest(block: &[u8], from: usize) -> &[u8]
    ensures { result.now ≡ drop from block.now }
{
    block.get(from..).unwrap_or(&[])
}

// How many octets stand before the first line end, or in all.
fn before(s: &[u8]) -> usize
    ensures value { result ≡ prefix_len (λ c. not (c == 10)) s.now }
    ensures upper_bound { result ≤ length s.now }
{
    s.iter().take_while(|c| **c != NEWLINE).count()
}

// Adds the octets of a block from a place on to a line of which some are kept, up to a line end.
pub fn gather(block: &[u8], from: usize, line: &mut [u8], count: usize) -> Gathered
    requires { (length line.old ≡ intake_room) × (count ≤ intake_room) }
    ensures { Gathers line.old block.now from count result line.new }
{
    let rest = rest(block, from);
    let length = before(rest);
    let kept = laid::lay(&rest[..length.min(ROOM - count)], line, count);
    let whole = length < rest.len();
    Gathered {
        next: from + length + usize::from(whole),
        count: kept,
        whole,
    }
}
