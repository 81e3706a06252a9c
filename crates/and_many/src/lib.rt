// AND on three to eight shares: its two halves (halves), called with a constant number of shares (counts). The contracts are those of the share steps.
#![tactic(auto)]

pub mod counts;
mod halves;
