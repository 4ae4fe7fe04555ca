// What packages and formulas are, as definitions (specs/) and laws about them (proofs/), with the types that definitions and readers share.
// The readers are in crates linetests, termreading, sumreading, reading and formulas.
#![tactic(auto)]

// A refusal: its number, and the line that it names, or 0 where it names none.
#[derive(Clone, Copy, Debug, PartialEq, Eq)]
pub struct Refusal {
    pub number: u32,
    pub place: usize,
}

// The kinds of block 2 by their ranks: terms of relations.
pub const TERM_G: u32 = 1;

// Terms of basis polynomials.
pub const TERM_B: u32 = 2;

// The kinds of block 3 by their ranks: sums that equal basis polynomials.
pub const SUM_B: u32 = 1;

// Sums that equal relations.
pub const SUM_G: u32 = 2;

// Sums that equal differences of overlaps and inclusions.
pub const SUM_O: u32 = 3;

// The value line of block 1: p, which means a field, the number of letters, of relations and of basis polynomials.
#[derive(Clone, Copy)]
pub struct Head {
    pub p: u32,
    pub letters: u32,
    pub gens: u32,
    pub basis: u32,
}

// How many terms a polynomial has at most, and how many letters a word.
#[derive(Clone, Copy)]
pub struct Limits {
    pub terms: usize,
    pub len: usize,
}

// The counts of line 2, and where the line behind it starts.
#[derive(Clone, Copy)]
pub struct CountsAt {
    pub head: Head,
    pub at: usize,
}

// What the head lines leave: the counts, and the place and the number of the first line of block 2.
#[derive(Clone, Copy)]
pub struct HeadAt {
    pub head: Head,
    pub at: usize,
    pub line: usize,
}

// A term line: its word is the len letters from start on.
#[derive(Clone, Copy)]
pub struct TermAt {
    pub kind: u32,
    pub item: u32,
    pub coef: u32,
    pub start: usize,
    pub len: usize,
}

// The term line above: its kind and item, its word as len letters from start on, and how many terms its item has so far.
#[derive(Clone, Copy)]
pub struct Last {
    pub kind: u32,
    pub item: u32,
    pub start: usize,
    pub len: usize,
    pub count: usize,
}

// What block 2 leaves: the number of its terms, and the place and the number of the line below the names line of block 3.
#[derive(Clone, Copy)]
pub struct TermsAt {
    pub terms: usize,
    pub at: usize,
    pub line: usize,
}

// A sum line at a place of a text: its words are the letters from left and from right on, and the line behind it starts at next.
#[derive(Clone, Copy)]
pub struct SumAt {
    pub kind: u32,
    pub item: usize,
    pub coef: u32,
    pub left: usize,
    pub left_len: usize,
    pub of: usize,
    pub right: usize,
    pub right_len: usize,
    pub next: usize,
}

// A package that reads: its counts, the number of its terms, and the place and number of the first sum line.
#[derive(Clone, Copy)]
pub struct PackageAt {
    pub head: Head,
    pub terms: usize,
    pub at: usize,
    pub line: usize,
}

// A term of a formula: its word is the len letters from start on.
#[derive(Clone, Copy)]
pub struct RowAt {
    pub coef: u32,
    pub start: usize,
    pub len: usize,
}
