// Multiples of a table's polynomials, coefficient × left × polynomial × right, taken away from the working formula with packed words, or placed as
// the whole of it. Left and right are words in six blocks each; the product with a term's word is made in a word of nine blocks, which is lent.
#![tactic(auto)]

pub mod building;
pub mod coefficients;
pub mod leading_term;
pub mod placing;
pub mod replacing;
pub mod taking;
