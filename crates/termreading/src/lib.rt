// Block 2: the term lines, judged by refusals 2, 5, 6 and 7 and stored in lent slices, and where the terms of each item start.
#![tactic(auto)]

pub mod items;
pub mod term_lines;
