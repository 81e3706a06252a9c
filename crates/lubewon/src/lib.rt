// The C interface: each public call under a C name, with the same contract. A slice passes as a pointer and a length.
// `include/lubewon.h` declares these functions; nothing checks that header against this file but the C test.
#![tactic(auto)]

pub mod complex_numbers;
pub mod in_place;
pub mod machines;
pub mod numbers;
pub mod on_shares;
pub mod programs;
pub mod shares;
