// What a call over any good plan has beside the plan's words and the work slice: its answer.
#![tactic(auto)]

pub mod one_operand;
pub mod operation;
