// What a line is tested for: the names lines, the counts of line 2 (refusals 3 and 4) and the bounds of coefficients and words.
#![tactic(auto)]

pub mod bounds;
pub mod counts;
pub mod names;
