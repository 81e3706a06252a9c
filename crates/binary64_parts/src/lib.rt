// What the operations on plain words are made of: the fields of a word, selection by masks, and rounding. None branches on its operands.
#![tactic(auto)]

pub mod fields;
pub mod rounding;
pub mod select;
