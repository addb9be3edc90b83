// The lister: the lines of a commissioning capture, laid into a lent output. A capture is only read. Assumes nothing.
#![tactic(auto)]

ghost use Rattle.std.specs.Prelude.{◌≡◌, ◌+◌, ◌*◌, ◌≤◌, length};
ghost use Rattle.frame_laws.specs.Terms.{Octets};
ghost use Rattle.laid.specs.Laid.{Lays};
ghost use Rattle.capture.specs.Listing.{count_of, length_of, bodies_at, last as listing_last, end_short, lines};
ghost use Rattle.capture.specs.Listing.{listed, left};

mod line;

// How much of a capture its listing takes note of: 2 octets of count, 4096 entries of 5, 4096 bodies of 255, and one
// octet more.
pub const LONGEST: usize = 2 + 4096 * 5 + 4096 * 255 + 1;

// Room for any listing: 34 octets a body, and the last line.
pub const ROOM: usize = 34 * 4096 + 10;

// How many bodies a capture announces.
#[tactic(auto, unfolding(crate::specs::Listing::count_of))]
fn count_of(s: &[u8]) -> usize
    requires { 2 ≤ length s.now }
    ensures { result ≡ count_of s.now }
{
    usize::from(u16::from_be_bytes([s[0], s[1]]))
}

// The length of body i.
#[tactic(auto, unfolding(crate::specs::Listing::length_of))]
fn length_of(s: &[u8], i: usize) -> usize
    requires { 5 * i + 7 ≤ length s.now }
    ensures value { result ≡ length_of s.now i }
    ensures upper_bound { result ≤ 255 }
{
    usize::from(s[5 * i + 6])
}

// Lays the last line of a capture whose bodies end at a place.
#[tactic(auto, unfolding(choice::specs::Choice::pick, choice::specs::Choice::less, crate::specs::Listing::last), using(crate::proofs::line::Steps::steps))]
fn last(s: &[u8], at: usize, out: &mut [u8], w: usize) -> usize
    requires { w + 10 ≤ length out.old }
    ensures { Lays out.old w (listing_last s.now at) 10 result out.new }
{
    if at < s.len() {
        laid::lay(b"end long\n", out, w)
    } else {
        laid::lay(b"end\n", out, w)
    }
}

// Lays the last line of a capture that stopped early.
fn cut(out: &mut [u8], w: usize) -> usize
    requires { w + 10 ≤ length out.old }
    ensures { Lays out.old w end_short 10 result out.new }
{
    laid::lay(b"end short\n", out, w)
}

// Lays the lines of the bodies, and the last line.
fn bodies(s: &[u8], count: usize, out: &mut [u8]) -> usize
    requires { (count ≤ 4096) × (bodies_at count ≤ length s.now) × (34 * count + 10 ≤ length out.old) }
    ensures { Lays out.old 0 (lines s.now 0 count (bodies_at count)) (34 * count + 10) result
        out.new }
{
    let mut at = 5 * count + 2;
    let mut w = 0;
    for i in 0..count {
        let n = length_of(s, i);
        if s.len() - at < n {
            return cut(out, w);
        }
        w = line::line(i, read::part(s, at, n), out, w);
        at += n;
    }
    last(s, at, out, w)
}

// Lays the listing of a capture, of whatever octets, and gives its length: 0 if the output has less room than any
// listing fits in. That a capture is of octets is the premise of what is proved of listings.
pub fn list(s: &[u8], out: &mut [u8]) -> usize
    ensures octets { Octets s.now }
    ensures value { result ≡ listed s.now out.old }
    ensures out_after { out.new ≡ left s.now out.old }
    ensures upper_bound { result ≤ length out.new }
{
    if out.len() < ROOM {
        return 0;
    }
    if s.len() < 2 {
        return cut(out, 0);
    }
    let count = count_of(s);
    if 4096 < count {
        return laid::lay(b"end count\n", out, 0);
    }
    if s.len() < 5 * count + 2 {
        return cut(out, 0);
    }
    bodies(s, count, out)
}
