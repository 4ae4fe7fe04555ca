// Where a field of a line ends, and the laws by which fields are read. Crates kindreading, numberreading and wordreading have the readers.
#![tactic(auto)]

pub mod ending;
