// Share steps done straight on the cells: no share word is written and none is taken apart. The contracts say that the cells are those that
// the translation gives, scratch cells included. What AND and ADD do once per share (once), a share of AND's y (fresh), and the end of AND (wipe).
#![tactic(auto)]

pub mod fresh;
pub mod once;
pub mod scratch;
pub mod wipe;
