// The list of pairs written as text to a slice. Crate listmeasuring says beforehand how many bytes it has.
#![tactic(auto)]

pub mod listing;
