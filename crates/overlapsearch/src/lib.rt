// The pairs of leading words (documents 01, 'Overlaps', and 02, P2): each one found behind the last, in the order of the list, and how many there are.
#![tactic(auto)]

pub mod finding;
pub mod inside;
pub mod keeping;
pub mod leading;
pub mod shared;
pub mod walking;

// A place in the order of the pairs: among the overlaps or, where `inside`, among the inclusions; two leading words, counted from 0; and how many
// letters they share or, where `inside`, where the second begins in the first.
#[derive(Clone, Copy)]
pub struct Cursor {
    pub inside: bool,
    pub first: usize,
    pub second: usize,
    pub number: usize,
}

impl Cursor {
    // The first place of all.
    pub const ORIGIN: Cursor = Cursor {
        inside: false,
        first: 0,
        second: 0,
        number: 1,
    };

    // The first place of the inclusions.
    pub const TURN: Cursor = Cursor {
        inside: true,
        first: 0,
        second: 0,
        number: 0,
    };
}

// A pair of two leading words, counted from 0: an overlap or, where `inside`, an inclusion.
#[derive(Clone, Copy)]
pub struct PairAt {
    pub first: usize,
    pub second: usize,
    pub inside: bool,
    pub shared: usize,
    pub at: usize,
}
