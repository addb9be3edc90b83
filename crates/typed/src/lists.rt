// The lists of the replay script, read into sets: masters, and access points with the word `none`. Assumes nothing.
ghost use Rattle.std.specs.Prelude.{true, false, [], ◌≡◌, ◌<◌, length};
ghost use Rattle.typed.specs.Lists.{greatest, pointed, entry as lists_entry, listed, closing, list_on};
ghost use Rattle.typed.specs.Lists.{list as lists_list};

use super::digits;

// The last address and the last access point that a list may hold, and the place of the word `none` in a set.
const LASTMASTER: u32 = 126;

const LASTPOINT: u32 = 62;

const NONEPLACE: u32 = 63;

// What a list holds.
#[derive(Clone, Copy)]
enum Kind {
    Masters,
    Points,
}

// The place of an entry in a set of points or of masters.
#[tactic(auto, using(crate::proofs::words::Walk::equal_reads), unfolding(choice::specs::Choice::pick, choice::specs::Choice::said, crate::specs::Lists::pointed, crate::specs::Lists::entry))]
fn entry(e: &[u8], kind: Kind) -> Option<u32>
    ensures { result ≡ lists_entry (pointed kind) e.now }
{
    match (kind, e) {
        (Kind::Masters, _) => digits::decimal(e, LASTMASTER),
        (Kind::Points, b"none") => Some(NONEPLACE),
        (Kind::Points, _) => digits::decimal(e, LASTPOINT),
    }
}

// Adds an entry to a set, if it is good.
#[tactic(auto, using(crate::proofs::lists::Commas::entry_most), unfolding(crate::specs::Lists::closing))]
fn close(e: &[u8], kind: Kind, out: &mut [u8]) -> bool
    requires { greatest (pointed kind) < length out.old }
    ensures { listed result out.new ≡ closing (pointed kind) e.now out.old }
{
    let Some(place) = entry(e, kind) else {
        return false;
    };
    out[place as usize] = 1;
    true
}

// Adds the entries of a list to a set, up to a bad one.
fn entries(s: &[u8], kind: Kind, out: &mut [u8]) -> bool
    requires { greatest (pointed kind) < length out.old }
    ensures { listed result out.new ≡ list_on (pointed kind) [] s.now out.old }
{
    for e in s.split(|c| *c == b',') {
        if !close(e, kind, out) {
            return false;
        }
    }
    true
}

// Reads a word as a list into a set, and says whether it is one.
#[tactic(auto, unfolding(choice::specs::Choice::pick, choice::specs::Choice::said, crate::specs::Lists::list))]
fn list(s: &[u8], kind: Kind, out: &mut [u8]) -> bool
    requires { greatest (pointed kind) < length out.old }
    ensures { listed result out.new ≡ lists_list (pointed kind) s.now out.old }
{
    digits::dash(s) || entries(s, kind, out)
}

// Reads a word as a list of masters into the set of them, and says whether it is one.
// Kept: `list(w, Kind::Masters, &mut set)` at a caller is no plainer, and asks for a bound that the set's type has.
#[tactic(auto, unfolding(choice::specs::Choice::pick, crate::specs::Lists::pointed, crate::specs::Lists::greatest))]
pub fn masters(s: &[u8], out: &mut [u8; 127]) -> bool
    ensures { listed result out.new ≡ lists_list false s.now out.old }
{
    list(s, Kind::Masters, out)
}

// Reads a word as a list of access points into the set of them, and says whether it is one.
#[tactic(auto, unfolding(choice::specs::Choice::pick, crate::specs::Lists::pointed, crate::specs::Lists::greatest))]
pub fn points(s: &[u8], out: &mut [u8; 64]) -> bool
    ensures { listed result out.new ≡ lists_list true s.now out.old }
{
    list(s, Kind::Points, out)
}
