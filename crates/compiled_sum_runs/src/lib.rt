// Written by tools/compile_plan.py: change the plan or the compiler, not this file.
// The sum's plan on n shares, what is below its call: its linear runs share by share, and the words between them (runs).
#![tactic(auto)]

pub mod runs;
