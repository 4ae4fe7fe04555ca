// Texts: what lines, fields, decimal numbers and words are, tests of bytes, and the answers of the readers of fields (crates kindreading, numberreading and wordreading).
// A reader of a field answers what the field says and the place behind it, or None if it says nothing of the kind.
// The number of a field is a `u32`, and a word is the number of its letters, which are the field's first bytes.
#![tactic(auto)]

pub mod bytes;

// A number field with another field behind it: its value, and the place where that one starts.
#[derive(Clone, Copy)]
pub struct NumberAt {
    pub value: u32,
    pub next: usize,
}

// A word field with another field behind it: the number of its letters, and the place where that one starts.
#[derive(Clone, Copy)]
pub struct WordAt {
    pub len: usize,
    pub next: usize,
}
