// AND's parts over all shares and pairs of shares, which its halves call: y (fresh), products of the same share and the copy of z out (copies), and the cross products
// (rows). The contracts are those of the share steps, up to what AND's scratch cells t and u hold.
#![tactic(auto)]

pub mod copies;
pub mod fresh;
pub mod rows;
