// The second operand of a call with one.

// The zeros: as many as the operand has words, eight at most, which is all that is not turned down.
pub const NONE: [u64; 8] = [0; 8];
