// Share run: the rest of its answer (rest), and the call (run). masking's `specs/` has the definitions that the contracts cite.
#![tactic(auto)]

pub mod rest;
pub mod run;
