// Linear plan words on one share at a time, as code that the compiler makes straight where the words are constants.
#![tactic(auto)]

pub mod linear;
