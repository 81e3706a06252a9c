// Share programs as mathematics: `specs/` has the translation, the share machine, share runs in a row and demand 3 as one
// statement; `proofs/` proves it. No functions.
#![tactic(auto)]
