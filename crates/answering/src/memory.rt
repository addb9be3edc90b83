// The answering memory: whether a request repeats the one that is remembered, the remembered reply laid again, and
// what is kept of a new one. Assumes nothing.
ghost use Rattle.std.specs.Prelude.{◌≡◌, ◌≤◌, true, length, take};
ghost use Rattle.choice.specs.Choice.{pick};
ghost use Rattle.laid.specs.Laid.{laid, Lays};
ghost use Rattle.state.specs.Answering.{repeated as answering_repeated};

use frame::Address;
use state::Kept;

// The frame count bit of a request, and whether it is valid.
#[derive(Clone, Copy)]
pub struct Bits {
    pub fcb: bool,
    pub fcv: bool,
}

// Whether a request repeats the one that is remembered.
#[tactic(auto, unfolding(choice::specs::Choice::pick, choice::specs::Choice::same, state::specs::Answering::repeated))]
pub fn repeated(k: Kept, source: Address, bits: Bits) -> bool
    ensures { result ≡ answering_repeated k source.0 bits.fcb bits.fcv }
{
    bits.fcv && k.source == source && k.bit == bits.fcb
}

// Lays the remembered reply's octets.
pub fn recall(octets: &[u8], n: usize, out: &mut [u8]) -> usize
    requires { (n ≤ length octets.now) × ((length octets.now ≤ 255) × (255 ≤ length out.old)) }
    ensures { Lays out.old 0 (take n octets.now) 255 result out.new }
{
    laid::lay(&octets[..n], out, 0)
}

// Remembers a counted request and its reply, the first n octets of the output, and gives what is kept of it.
#[tactic(auto, unfolding(choice::specs::Choice::pick))]
pub fn remember(
    k: Kept,
    octets: &mut [u8],
    source: Address,
    bits: Bits,
    n: usize,
    out: &[u8],
) -> Kept
    requires reply { (n ≤ 255) × ((n ≤ length octets.old) × (n ≤ length out.now)) }
    ensures kept { result
        ≡ pick (pick bits.fcb true bits.fcv) (record { source = source; bit = bits.fcb; length = n }) k }
    ensures octets_after { octets.new
        ≡ pick (pick bits.fcb true bits.fcv) (laid octets.old 0 (take n out.now))
        octets.old }
{
    if !bits.fcb && !bits.fcv {
        return k;
    }
    laid::lay(&out[..n], octets, 0);
    Kept {
        source,
        bit: bits.fcb,
        length: n as u16,
    }
}
