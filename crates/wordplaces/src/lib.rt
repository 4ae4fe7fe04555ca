// Where a word stands in another.
#![tactic(auto)]

pub mod eight_letters;
pub mod place;
pub mod two_letters;
