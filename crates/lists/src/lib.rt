// Lists, whatever they hold: every element has a property, two lists are the same, parts of lists, and runs of stores. Definitions and laws
// that say nothing of words, texts or polynomials stand here once, for all crates; and a number as a wider one.
#![tactic(auto)]

pub mod numbers;
