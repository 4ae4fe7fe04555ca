// The table of a package that was read: its sections filled from the slices in which the package lies, and its basis divided by the leading coefficients.
// Nothing else stores to a table.
#![tactic(auto)]

pub mod dividing;
pub mod filling;
pub mod rows;
pub mod sections;
