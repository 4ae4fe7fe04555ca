// A stored case and what is printed for it, made in a slice: the program `vectors` only reads the cases and writes the texts.
#![tactic(auto)]

pub mod answers;
pub mod head;
mod outputs;
mod packed;
mod standing;
