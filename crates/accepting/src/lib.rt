// A package's bytes, read and checked (document 01, 'Numbers and places'): refusals 1 to 15, or the package in its table.
#![tactic(auto)]

pub mod accept;
