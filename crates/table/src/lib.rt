// A package that was read, as one table of numbers: what its numbers are called, and what they mean (specs/). Nothing outside this crate and the
// one that fills the table knows where a number stands.
#![tactic(auto)]

pub mod numbers;

// The table: specs/Table.antt has its sections.
pub type Table = [u64; 3424];
