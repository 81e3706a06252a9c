// The built-in plans as mathematics: `specs/` has them as steps, and `proofs/` what they compute and cost. No functions: `plan_copy` has their words.
#![tactic(auto)]
