// Word arithmetic as mathematics: `specs/` has the operations, `proofs/` their laws. No functions.
#![tactic(auto)]
