// Measure and Translate. `specs/` and masking's `specs/` have the definitions that the contracts cite.
#![tactic(auto)]

pub mod measure;
pub mod translate;
