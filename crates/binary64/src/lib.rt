// Document 01's numbers as mathematics: `specs/` has what a word stands for and the five operations, and `proofs/` that these mean what the documents say,
// with the lemmas that the plain code and the plans go by. No functions: `binary64_plain` and `binary64_whole` have the operations on plain words.
#![tactic(auto)]
