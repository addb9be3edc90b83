// The ring: the set of masters, who is in it, enters it and leaves it, and the search for the next and the previous
// one, one address after another. Nothing here knows a token. Assumes nothing.
#![tactic(auto, using(crate::proofs::Steps::seek_steps, crate::proofs::Steps::no_place), unfolding(choice::specs::Choice::pick, choice::specs::Choice::less, choice::specs::Choice::same, crate::specs::Ring::member, crate::specs::Ring::on, crate::specs::Ring::next_of, crate::specs::Ring::previous_of, crate::specs::Ring::enter, crate::specs::Ring::remove))]

ghost use Rattle.std.specs.Prelude.{◌≡◌, ◌<◌, ◌≤◌, set};
ghost use Rattle.ring.specs.Ring.{on as ring_on, seek as ring_seek, next_of, previous_of, enter as ring_enter};
ghost use Rattle.ring.specs.Ring.{remove as ring_remove, member as ring_member};

use frame::Address;

// The set of masters: 1 at each address that is in it.
#[derive(Clone, Copy, Debug, PartialEq, Eq)]
pub struct Masters(pub [u8; 127]);

// The address some steps on, past 126 to 0.
fn on(step: usize, a: usize) -> usize
    requires { (step < 127) × (a < 127) }
    ensures { (result ≡ ring_on step a) × (result < 127) }
{
    let b = a + step;
    if b < 127 { b } else { b - 127 }
}

// The first of the untried addresses that is in the set, or where the search ends.
// Kept: document 01 names this form, a recursion over addresses with a falling count of the untried. They are `usize`:
// over octets a step cost 13 instructions in place of 8.
fn seek(masters: &[u8; 127], step: usize, untried: usize, a: usize) -> usize
    requires { (step < 127) × (a < 127) }
    ensures { (result ≡ ring_seek masters.now step untried a) × (result < 127) }
{
    if untried == 0 {
        return a;
    }
    let b = on(step, a);
    if masters[b] == 1 {
        b
    } else {
        seek(masters, step, untried - 1, b)
    }
}

// NS of a station: the next master upward, itself if there is no other.
pub fn next(masters: &[u8; 127], ts: Address) -> Address
    requires { ts.0 < 127 }
    ensures { (result.0 ≡ next_of masters.now ts.0) × (result.0 < 127) }
{
    Address(seek(masters, 1, 127, usize::from(ts.0)) as u8)
}

// PS of a station at the start: the next master downward.
pub fn previous(masters: &[u8; 127], ts: Address) -> Address
    requires { ts.0 < 127 }
    ensures { (result.0 ≡ previous_of masters.now ts.0) × (result.0 < 127) }
{
    Address(seek(masters, 126, 127, usize::from(ts.0)) as u8)
}

// Whether a station is in the set.
pub fn member(masters: &[u8; 127], a: Address) -> bool
    requires { a.0 < 127 }
    ensures { result ≡ ring_member masters.now a.0 }
{
    masters[usize::from(a.0)] == 1
}

// The place of an address in the set is written, if there is such a place.
// Kept: `get_mut` of a slice says nothing of its elements, so the proof of `if let Some(..)` doesn't close.
fn write_place(masters: &mut [u8], at: usize, m: u8)
    ensures { masters.new ≡ set masters.old at m }
{
    if at < masters.len() {
        masters[at] = m;
    }
}

// A station enters the set, and one leaves it.
pub fn enter(masters: &mut [u8; 127], a: Address)
    ensures { masters.new ≡ ring_enter masters.old a.0 }
{
    write_place(masters, usize::from(a.0), 1);
}

pub fn remove(masters: &mut [u8; 127], a: Address)
    ensures { masters.new ≡ ring_remove masters.old a.0 }
{
    write_place(masters, usize::from(a.0), 0);
}
