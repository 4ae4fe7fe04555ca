// Numbers, words and bytes written to a slice, and how many bytes they take.
#![tactic(auto)]

pub mod write;
