// Kinds read as fields of a line, from a place on: they go by their rank.
#![tactic(auto)]

pub mod kind;
