// The working formula with packed words: a polynomial in arrays of 560 places, and one term added to it or put in place of another.
#![tactic(auto)]

pub mod entries;
pub mod replacing;
pub mod search;
pub mod term;

// For each place `coefs` has a coefficient, `sizes` the size of a word (256 × weight + number of letters) and `blocks` the six blocks of the word. The
// first `terms` entries of `places` are the places of the terms, the greatest word first, the others the free places, whose numbers count for nothing:
// a term comes or goes by moving one entry. A service makes one of zeros where it is to lie, since a function that returned it would copy 32 kilobytes;
// then `start` of crate working names the places in order.
#[derive(Drop)]
pub struct WorkingFormula {
    pub coefs: [u32; 560],
    pub sizes: [u32; 560],
    pub blocks: [u64; 3360],
    pub places: [u16; 560],
    pub terms: usize,
}

// A packed word: its blocks and its size, 256 × weight + number of letters. A place has six blocks, and a product is made in nine.
#[derive(Drop)]
pub struct PackedWord<const N: usize> {
    pub blocks: [u64; N],
    pub size: usize,
}

impl PackedWord<6> {
    // The word without letters.
    pub const EMPTY: PackedWord<6> = PackedWord {
        blocks: [0; 6],
        size: 0,
    };
}
