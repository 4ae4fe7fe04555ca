// Words of a text packed by a table's keys: codes into blocks, and weight and number of letters into a size.
#![tactic(auto)]

pub mod pack;
