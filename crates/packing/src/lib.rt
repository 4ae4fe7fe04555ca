// Functions on packed words (crate packedwords): compared, multiplied, cut into parts and found in one another. A word is in
// as many blocks as its room has, twelve letters in each, with zeros behind its end; how many letters it has is given beside it.
#![tactic(auto)]

pub mod block;
pub mod order;
pub mod part;
pub mod place;
pub mod product;
