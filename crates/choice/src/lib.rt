// No code: the shut if-else and tests that every other crate's definitions are written in (specs/), and the rules
// by which a function's return is held to a chain of them (proofs/). Assumes nothing.
