// Complex numbers and a layer of the transform as mathematics: `specs/` has what the calls give and what holds of them, `proofs/` why. No functions:
// `fft_plain` has them on plain words, `fft_layer` on shares.
#![tactic(auto)]

// A number's sign bit.
pub const SIGN: u64 = 0x8000_0000_0000_0000;
