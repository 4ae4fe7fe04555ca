// The sums of a kind on a package's table (refusals 10, 11 and 12): a loop over the items of a kind and one over an item's lines, left from inside
// with number and place.
#![tactic(auto)]

pub mod judging;
pub mod numbers;

// The place and the number of the line behind sums that passed.
#[derive(Clone, Copy)]
pub struct Behind {
    pub at: usize,
    pub line: usize,
}

// The numbers of a kind of sums: the number that a wrong sum gives, how many targets there are, the item before the first target, and the item before
// the first polynomial that the sums are over.
#[derive(Clone, Copy)]
pub struct KindNumbers {
    pub number: u32,
    pub count: usize,
    pub targets: usize,
    pub others: usize,
}
