// The working formula's order of places. The formula is a polynomial held in arrays, to which multiples of others are added; `o` says which place
// each term has: its first n entries are the terms, the greatest word first, and the others are the free places. A term is put in or dropped by
// moving one entry of `o`, and with it those between; coefficients and words stay where they are. Entries have 16 bits, so that few bytes are moved.
// Here `o` starts and its entries move, and here are the definitions of polynomials that lie in slices. The arrays are in crate packedterms, and a
// multiple is added in crate itemadding.
#![tactic(auto)]

pub mod entries;
pub mod formula;
