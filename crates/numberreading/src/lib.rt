// Numbers read as fields of a line, from a place on.
#![tactic(auto)]

pub mod number;
