// A plan compiled to code on shares: what its crate gives (compiled), the plan done (run), and the calls over it (calls, in_place), written once for every
// plan.
#![tactic(auto)]

pub mod calls;
pub mod compiled_plan;
pub mod in_place;
pub mod run;
