// The reader of packages: from bytes to the counts, the terms in lent slices and the place of the first sum line, or the first refusal of 1 to 7.
#![tactic(auto)]

pub mod head_lines;
pub mod read;
