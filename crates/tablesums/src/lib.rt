// Sum lines and pairs on a package's table: their words packed, the overlap word, the difference that the sum of a pair starts with, and the test
// of refusal 14.
#![tactic(auto)]

pub mod factors;
pub mod lines;
pub mod starting;
pub mod under;
