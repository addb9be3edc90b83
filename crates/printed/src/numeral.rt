// A number as it is printed: its decimal digits, laid into a lent output. Assumes nothing.
// Kept: `write!` promises its text only where it gives `Ok`, and no contract of `fmt::Write` says when that is; a
// number is always laid, octet for octet (numeral), into fixed memory.
#![tactic(auto, using(crate::proofs::numeral::Steps::digits), unfolding(crate::specs::Numeral::numeral))]

ghost use Rattle.std.specs.Prelude.{◌+◌, ◌≤◌, length};
ghost use Rattle.laid.specs.Laid.{Lays};
ghost use Rattle.printed.specs.Numeral.{numeral, numeral_in};

// Lays a number in at most so many digits, and gives the place behind it.
fn put_in(most: usize, n: u32, out: &mut [u8], at: usize) -> usize
    requires { at + most ≤ length out.old }
    ensures { Lays out.old at (numeral_in most n) most result out.new }
{
    if most == 0 {
        return at;
    }
    if n < 10 {
        out[at] = b'0' + n as u8;
        return at + 1;
    }
    let last = put_in(most - 1, n / 10, out, at);
    out[last] = b'0' + (n % 10) as u8;
    last + 1
}

// Lays a number, and gives the place behind it.
pub fn put(n: u32, out: &mut [u8], at: usize) -> usize
    requires { at + 10 ≤ length out.old }
    ensures { Lays out.old at (numeral n) 10 result out.new }
{
    put_in(10, n, out, at)
}

// Lays the number of an octet, which has at most three digits, and gives the place behind it.
pub fn octet(n: u8, out: &mut [u8], at: usize) -> usize
    requires { at + 3 ≤ length out.old }
    ensures { Lays out.old at (numeral n) 3 result out.new }
{
    put_in(3, u32::from(n), out, at)
}
