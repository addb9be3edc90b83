// The numbers and octets of the replay script: a word as a decimal number or as hex octets, and octets as hex digits.
// Words may be any octets of any length. Assumes nothing.
ghost use Rattle.std.specs.Prelude.{true, ◌≡◌, ◌+◌, ◌*◌, ◌/◌, ◌≤◌, ◌<◌, length};
ghost use Rattle.std.specs.Char.{is_ascii_hexdigit};
ghost use Rattle.std.specs.List.{list_all};
ghost use Rattle.laid.specs.Laid.{Lays, laid};
ghost use Rattle.typed.specs.Digits.{decimal as digits_decimal, nibble as digits_nibble, octets};
ghost use Rattle.typed.specs.Digits.{dash as digits_dash, is_octets, hex as digits_hex, hex_left};
ghost use Rattle.typed.specs.Digits.{glyph as digits_glyph, hex_of, shown};

// A word as a decimal number of at most a greatest value.
#[tactic(auto, using(crate::proofs::digits::Numbers::reading), unfolding(choice::specs::Choice::pick, choice::specs::Choice::same, crate::specs::Digits::decimal))]
pub fn decimal(s: &[u8], most: u32) -> Option<u32>
    ensures { result ≡ digits_decimal s.now most }
{
    if s.is_empty() {
        return None;
    }
    let mut value = 0u64;
    for c in s {
        if !c.is_ascii_digit() {
            return None;
        }
        value = 10 * value + u64::from(*c - b'0');
        if u64::from(most) < value {
            return None;
        }
    }
    Some(value as u32)
}

// The value of a hex digit of either case.
#[tactic(auto, unfolding(choice::specs::Choice::pick, choice::specs::Choice::less, crate::specs::Digits::nibble))]
fn nibble(c: u8) -> u8
    requires { digits_nibble c < 16 }
    ensures { result ≡ digits_nibble c }
{
    match c {
        b'0'..=b'9' => c - b'0',
        b'A'..=b'F' => c - b'A' + 10,
        _ => c - b'a' + 10,
    }
}

// Whether all characters are hex digits.
fn all_hex(s: &[u8]) -> bool
    ensures { result ≡ list_all is_ascii_hexdigit s.now }
{
    s.iter().all(|c| c.is_ascii_hexdigit())
}

// Whether a word is `-`.
#[tactic(auto, using(crate::proofs::digits::Pairs::dash_reads))]
pub fn dash(s: &[u8]) -> bool
    ensures { result ≡ digits_dash s.now }
{
    matches!(s, b"-")
}

// Whether a word is octets.
#[tactic(auto, using(crate::proofs::digits::Pairs::all_hex_is), unfolding(choice::specs::Choice::pick, choice::specs::Choice::same, choice::specs::Choice::said, crate::specs::Digits::is_octets))]
pub fn is_octets(s: &[u8]) -> bool
    ensures { result ≡ is_octets s.now }
{
    dash(s) || s.len() % 2 == 0 && all_hex(s)
}

// Lays the octets of a word at the start of an output.
#[tactic(auto, using(std::proofs::lemmas::Grind::common_steps, crate::proofs::digits::Pairs::octets_steps))]
fn lay_octets(s: &[u8], out: &mut [u8])
    requires { (is_octets s.now ≡ true) × (length s.now / 2 ≤ length out.old) }
    ensures { out.new ≡ laid out.old 0 (octets s.now) }
{
    for k in 0..s.len() / 2 {
        out[k] = 16 * nibble(s[2 * k]) + nibble(s[2 * k + 1]);
    }
}

// Reads a word as octets into the start of an output, and gives their count; nothing is done where the word is no octets
// or the output is too short.
#[tactic(auto, unfolding(choice::specs::Choice::pick, choice::specs::Choice::less, choice::specs::Choice::said, crate::specs::Digits::hex, crate::specs::Digits::hex_left))]
pub fn hex(s: &[u8], out: &mut [u8]) -> Option<usize>
    ensures value { result ≡ digits_hex s.now (length out.old) }
    ensures out_after { out.new ≡ hex_left s.now out.old }
{
    let count = s.len() / 2;
    if !is_octets(s) || out.len() < count {
        return None;
    }
    lay_octets(s, out);
    Some(count)
}

// The hex digit of a number below 16, upper case.
#[tactic(auto, unfolding(choice::specs::Choice::pick, choice::specs::Choice::less, crate::specs::Digits::glyph))]
fn glyph(d: u8) -> u8
    requires { d < 16 }
    ensures { result ≡ digits_glyph d }
{
    if d < 10 { b'0' + d } else { b'A' + (d - 10) }
}

// Lays octets as hex digits, and gives the place behind them.
#[tactic(auto, using(std::proofs::lemmas::Grind::common_steps, crate::proofs::digits::Pairs::digits_steps))]
fn put_hex(x: &[u8], out: &mut [u8], at: usize) -> usize
    requires { at + 2 * length x.now ≤ length out.old }
    ensures { Lays out.old at (hex_of x.now) (2 * length x.now) result
        out.new }
{
    for (i, octet) in x.iter().enumerate() {
        out[at + 2 * i] = glyph(*octet / 16);
        out[at + 2 * i + 1] = glyph(*octet % 16);
    }
    at + 2 * x.len()
}

// Lays octets as they are printed, and gives the place behind them.
pub fn put_octets(x: &[u8], out: &mut [u8], at: usize) -> usize
    requires { at + (2 * length x.now + 1) ≤ length out.old }
    ensures { Lays out.old at (shown x.now) (2 * length x.now + 1) result
        out.new }
{
    if x.is_empty() {
        return laid::lay(b"-", out, at);
    }
    put_hex(x, out, at)
}
