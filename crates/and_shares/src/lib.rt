// AND on shares by their number, for the registers of plans and for ADD's helper registers.
#![tactic(auto)]

pub mod and;
