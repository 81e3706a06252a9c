// The texts of a listing beside the lines of share words: the first line or the refusal (line). `specs/` has the definitions that the contracts
// cite.
#![tactic(auto)]

pub mod line;
