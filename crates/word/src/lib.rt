// Step words, as document 01's section "Step words" has them: fields, putting together, and the facts of the word's own type.
// `specs/` has the definitions that the contracts cite.
#![tactic(auto)]

pub mod parts;
pub mod step;
pub mod step_word;
