// How two words stand to each other in the order of document 01.
#![tactic(auto)]

pub mod order;
