// Words of a plan that join shares, done straight on the cells: ADD by its gadgets (add), and AND and ADD as words (gates).
#![tactic(auto)]

mod add;
pub mod gates;
