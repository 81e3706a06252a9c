// What the program `sharelist` writes for its input, piece by piece (pieces), the first line and the head's at the front (opening), over its input
// bytes (listing_input) and the lines of plan words (listing_parts). `specs/` has the definitions that the contracts cite.
#![tactic(auto)]

pub mod opening;
pub mod pieces;
