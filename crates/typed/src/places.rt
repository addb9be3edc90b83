// What fits its place in a line of the replay script: words that stand for a number, and what a word or some words of a
// line are. Assumes nothing.
ghost use Rattle.std.specs.Prelude.{◌≡◌, ◌+◌, ◌≤◌};
ghost use Rattle.typed.specs.Words.{word};
ghost use Rattle.typed.specs.Places.{queue as places_queue, room as places_room, service as places_service};
ghost use Rattle.typed.specs.Places.{access as places_access, called as places_called, named as places_named};
ghost use Rattle.typed.specs.Places.{numbers as places_numbers, pair as places_pair, is_masters, is_points};

use super::{digits, lists, words};

// The settings, TS and CLOCK are at most LONG; the row lengths, DA, DSAP and SSAP at most SHORT.
pub const LONG: u32 = 4294967295;

pub const SHORT: u32 = 255;

// What `-` is in the place of an access point.
const DASHED: u32 = 256;

// A line has at most so many characters.
pub const LONGEST: usize = 4096;

// What a name and its value give behind a line's words: the number, and which word stands behind the two.
#[derive(Clone, Copy)]
pub struct Pair {
    pub number: Option<u32>,
    pub behind: usize,
}

// A queue's number: 0 the high one, 1 the low one.
// Kept: a table each for queue and room; one function that is given the words is no plainer.
#[tactic(auto, using(crate::proofs::words::Walk::equal_reads), unfolding(choice::specs::Choice::pick, choice::specs::Choice::said, crate::specs::Places::either, crate::specs::Places::queue))]
pub fn queue(w: &[u8]) -> Option<u32>
    ensures { result ≡ places_queue w.now }
{
    match w {
        b"high" => Some(0),
        b"low" => Some(1),
        _ => None,
    }
}

// The number that says whether the caller has room.
#[tactic(auto, using(crate::proofs::words::Walk::equal_reads), unfolding(choice::specs::Choice::pick, choice::specs::Choice::said, crate::specs::Places::either, crate::specs::Places::room))]
pub fn room(w: &[u8]) -> Option<u32>
    ensures { result ≡ places_room w.now }
{
    match w {
        b"0" => Some(0),
        b"1" => Some(1),
        _ => None,
    }
}

// A service's number, also of those that submit refuses.
#[tactic(auto, using(crate::proofs::words::Walk::equal_reads), unfolding(choice::specs::Choice::pick, choice::specs::Choice::said, crate::specs::Places::unserved, crate::specs::Places::service))]
pub fn service(w: &[u8]) -> Option<u32>
    ensures { result ≡ places_service w.now }
{
    match w {
        b"sda" => Some(3),
        b"sdn" => Some(4),
        b"srd" => Some(12),
        b"status" => Some(9),
        b"ident" => Some(14),
        b"lsap" => Some(15),
        _ => None,
    }
}

// An access point's number, or that of none.
#[tactic(auto, unfolding(choice::specs::Choice::pick, choice::specs::Choice::said, crate::specs::Places::access))]
pub fn access(w: &[u8]) -> Option<u32>
    ensures { result ≡ places_access w.now }
{
    if digits::dash(w) {
        Some(DASHED)
    } else {
        digits::decimal(w, SHORT)
    }
}

// Whether a line has a call's word.
#[tactic(auto, unfolding(crate::specs::Places::called))]
pub fn called(s: &[u8], name: &[u8]) -> bool
    ensures { result ≡ places_called s.now name.now }
{
    words::equal(words::word(s, 0), name)
}

// Whether a line has a call's word and count of words.
#[tactic(auto, unfolding(choice::specs::Choice::pick, choice::specs::Choice::same, choice::specs::Choice::said, crate::specs::Places::named))]
pub fn named(s: &[u8], name: &[u8], n: usize) -> bool
    ensures { result ≡ places_named s.now name.now n }
{
    words::count(s) == n && called(s, name)
}

// Whether n words from word k on are numbers of at most a greatest.
#[tactic(auto, using(crate::proofs::places::Many::numbers_more, crate::proofs::places::Many::numbers_none), unfolding(choice::specs::Choice::pick))]
pub fn numbers(s: &[u8], k: usize, n: usize, most: u32) -> bool
    requires { k + n ≤ 100 }
    ensures { result ≡ places_numbers s.now k n most }
{
    for at in k..k + n {
        if digits::decimal(words::word(s, at), most).is_none() {
            return false;
        }
    }
    true
}

// The pair of a name at word k, with a value of at most a greatest; a pair that is left out has its standard value.
#[tactic(auto, unfolding(choice::specs::Choice::pick, choice::specs::Choice::said, crate::specs::Places::pair))]
pub fn pair_at(s: &[u8], k: usize, name: &[u8], most: u32, standard: u32) -> Pair
    requires { k ≤ 98 }
    ensures value { result ≡ places_pair s.now k name.now most standard }
    ensures behind_bound { result.behind ≤ k + 2 }
{
    if words::equal(words::word(s, k), name) {
        Pair {
            number: digits::decimal(words::word(s, k + 1), most),
            behind: k + 2,
        }
    } else {
        Pair {
            number: Some(standard),
            behind: k,
        }
    }
}

// Whether a word of a line is a list of masters, and whether it is one of access points.
#[tactic(auto, unfolding(crate::specs::Lists::listed, crate::specs::Places::is_masters))]
pub fn masters_at(s: &[u8], k: usize) -> bool
    ensures { result ≡ is_masters (word s.now k) }
{
    lists::masters(words::word(s, k), &mut [0; 127])
}

#[tactic(auto, unfolding(crate::specs::Lists::listed, crate::specs::Places::is_points))]
pub fn points_at(s: &[u8], k: usize) -> bool
    ensures { result ≡ is_points (word s.now k) }
{
    lists::points(words::word(s, k), &mut [0; 64])
}
