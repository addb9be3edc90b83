// No code: the theorems about the frame table (proofs/): what is written reads back, what is read writes back, and a
// flipped bit is refused. Assumes nothing.
