// Octets laid over a lent output: what every step of a writer leaves in it (specs/), the laws by which steps in a row
// are one (proofs/), and the one function that lays a given piece. Assumes nothing.
#![tactic(auto)]

ghost use Rattle.std.specs.Prelude.{◌+◌, ◌≤◌, length};
ghost use Rattle.laid.specs.Laid.{Lays};

// Lays a piece from a place on, and gives the place behind it.
pub fn lay(piece: &[u8], out: &mut [u8], at: usize) -> usize
    requires { at + length piece.now ≤ length out.old }
    ensures { Lays out.old at piece.now (length piece.now) result
        out.new }
{
    out[at..at + piece.len()].copy_from_slice(piece);
    at + piece.len()
}
