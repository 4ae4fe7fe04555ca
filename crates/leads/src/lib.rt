// The leftmost leading word of a basis in a packed word, through an index of the leading words: masks in which bit g stands for leading word g. At a
// place of the word each letter cuts down the candidates. There are 25 rows of 32 masks: row k, column x, has the words with the code x at place k,
// and row k, column 0, the words of exactly k letters. Behind these 800 masks there are 32 more, by which a place is first tested for two letters at
// once.
#![tactic(auto)]

pub mod indexing;
pub mod masks;
pub mod spotting;

// The leftmost place where a leading word stands in a word, and the number, from 1, of the first that stands there.
#[derive(Clone, Copy)]
pub struct Spot {
    pub place: usize,
    pub number: usize,
}
