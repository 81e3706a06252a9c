// What calls begin with: why they are turned down (refusal) and how C is told (answer), the plan reader, the check of a plan and of a share program
// without its head, and the share count. `specs/` has the definitions that the contracts cite.
#![tactic(auto)]

pub mod answer;
pub mod check;
pub mod reader;
pub mod refusal;
pub mod share_count;
