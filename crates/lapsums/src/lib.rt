// The sums of the overlaps and inclusions on a package's table (refusals 10, 13, 14 and 15): a loop over these pairs and one over a pair's lines,
// left from inside with number and place; and 15.
#![tactic(auto)]

pub mod beginning;
pub mod laps;
pub mod overlap_sums;

// Pairs that passed: how many there are, and whether a line is left over behind theirs.
#[derive(Clone, Copy)]
pub struct PairsPassed {
    pub count: usize,
    pub left: bool,
}
