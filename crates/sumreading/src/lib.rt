// Block 3: the sum lines, read one by one and judged by refusals 2, 5 and 6. They are not stored.
#![tactic(auto)]

pub mod line_end;
pub mod sum_lines;
#[cfg(test)]
mod tests;
