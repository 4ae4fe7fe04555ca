// What a basis's leading words are, and refusal 8. The polynomials lie in slices: coefficients, starts and lengths of the terms' words in the
// bytes, and where each polynomial's terms begin.
#![tactic(auto)]

pub mod basis;
