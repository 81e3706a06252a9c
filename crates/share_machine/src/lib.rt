// The share machine: words done on the cells (exec), and the tape words that they take (rands). An inner crate of share run and of the
// conversion: its functions ask for 512 cells, a tape that is long enough, and good RANDs where these are counted.
#![tactic(auto)]

pub mod exec;
pub mod rands;
