// What a package's sums are made of: sum lines as they stand in the bytes (refusal 15).
#![tactic(auto)]

pub mod item_lines;
pub mod sum_line;
#[cfg(test)]
mod tests;
