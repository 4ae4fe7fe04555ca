// The leftmost leading word in a packed word, by the index that `index_leads` makes. A place is tested by two letters at once; only
// where these may begin a leading word the masks of the letters are read.

ghost use Rattle.std.specs.Prelude.{◌≡◌, false, List, ℕ, ◌+◌, ◌*◌, ◌/◌, ◌%◌, ◌≤◌, ◌<◌, ◌^◌, length, take, drop};
ghost use Rattle.words.specs.Word.{Word};
ghost use Rattle.packedwords.specs.Packed.{window_of, unpacked, Packs};
ghost use Rattle.leads.specs.CodeIndex.{CodeIndexed};
ghost use Rattle.leads.specs.CodeSearch.{Windowed, BegunFrom, SearchedBetween};
ghost use Rattle.leads.specs.SpotOfWords.{seen, spot_of_words};

use crate::Spot;
use crate::masks::lowest;
use packing::block::up;
use packing::part::{block_at, window_at};

// A block, moved up so that its first letter has the highest five of 64 bits: a letter that is then moved out leaves by itself.
fn high(x: u64) -> u64
    requires { x < 2 ^ 60 }
    ensures { result ≡ 16 * x }
{
    x << 4
}

// A block x so moved up, without its first letter.
fn without_first(x: u64) -> u64
    requires { x % 16 ≡ 0 }
    ensures { result ≡ 16 * (x / 16 * 2 ^ 5 % 2 ^ 60) }
{
    x << 5
}

// The same, with the first letter of y, so moved up too, behind it.
fn next_high(x: u64, y: u64) -> u64
    requires { (x % 16 ≡ 0) × (y / 16 < 2 ^ 60) }
    ensures { result ≡ 16 * (x / 16 * 2 ^ 5 % 2 ^ 60 + y / 16 / 2 ^ 55) }
{
    without_first(x) + (y >> 59) * 16
}

// Whether some leading word may begin a word whose first twelve letters are x, moved up.
fn may_begin(index: &[u64; 832], x: u64) -> bool
    requires { x / 16 < 2 ^ 60 }
    ensures { result ≡ false → (y : ℕ) → BegunFrom index.now (x / 16) y 0 }
{
    let c = (x >> 59) as usize;
    let d = (x >> 54) as usize % 32;
    (index[800 + c] >> d) % 2 == 1
}

// What follows of the letters from place i on, when k of them were read and v had the last of these in front: the block at place i + 12 where
// twelve were read, and else v moved up by a letter.
fn next_letters(v: u64, word: &[u64], i: usize, k: usize) -> u64
    requires { (i ≤ 72) × Windowed word.now }
    ensures { (k ≡ 12 → result ≡ window_of word.now (i + 12)) × ((k ≡ 12 → ⊥) → result ≡ v * 2 ^ 5 % 2 ^ 60) × (result < 2 ^ 60) }
{
    if k == 12 {
        window_at(word, i + 12)
    } else {
        up(v, 5)
    }
}

// The mask of the leading words that stand at place i of the word, whose letters from there on are x, then those at i + 12. `left` has those
// that agree with it so far, `begun` those found whole.
fn begun_by(index: &[u64; 832], x: u64, word: &[u64], i: usize) -> u64
    requires { (x < 2 ^ 60) × (i ≤ 72) × Windowed word.now }
    ensures { BegunFrom index.now x (window_of word.now (i + 12)) result }
{
    let mut left = u64::MAX;
    let mut begun = 0;
    let mut v = x;
    for k in 0..24 {
        let r = k * 32;
        begun = begun | (left & index[r]);
        left = left & index[r + (v >> 55) as usize];
        if left == 0 {
            return begun;
        }
        v = next_letters(v, word, i, k + 1);
    }
    begun | (left & index[768])
}

// The same, with the test of two letters first; x is moved up.
fn begun_at(index: &[u64; 832], x: u64, word: &[u64], i: usize) -> u64
    requires { (x / 16 < 2 ^ 60) × (i ≤ 72) × Windowed word.now }
    ensures { BegunFrom index.now (x / 16) (window_of word.now (i + 12)) result }
{
    if may_begin(index, x) {
        begun_by(index, x >> 4, word, i)
    } else {
        0
    }
}

// The leftmost place of a leading word from the first place of block j on, before place `end`. x has the letters from place i on, y those of the
// block behind that are not yet in x, both moved up.
fn spot_in_block(index: &[u64; 832], word: &[u64], j: usize, end: usize) -> Option<Spot>
    requires word_len { (length word.now ≡ 6) × Windowed word.now }
    requires j_bound { (j < 6) × (12 * j ≤ end) × (end ≤ 12 * j + 12) }
    ensures { SearchedBetween index.now word.now (12 * j) end (seen result) }
{
    let mut x = high(word[j]);
    let mut y = high(block_at(word, j + 1));
    for i in 12 * j..end {
        let begun = begun_at(index, x, word, i);
        if begun != 0 {
            let number = lowest(begun) + 1;
            return Some(Spot { place: i, number });
        }
        x = next_high(x, y);
        y = without_first(y);
    }
    None
}

// The leftmost place of a leading word in the word of n letters in six blocks, and there the lowest number. Place n, behind the last letter, is a
// place too: a leading word of no letters stands there.
fn spot_in_blocks(index: &[u64; 832], word: &[u64], n: usize) -> Option<Spot>
    requires { (length word.now ≡ 6) × Packs n word.now }
    ensures { (ls : List Word) → CodeIndexed ls index.now → seen result ≡ spot_of_words ls (unpacked n word.now) }
{
    for j in 0..n.div_ceil(12) {
        let end = n.min(12 * j + 12);
        if let Some(spot) = spot_in_block(index, word, j, end) {
            return Some(spot);
        }
    }
    let begun = index[0];
    if begun != 0 {
        let number = lowest(begun) + 1;
        return Some(Spot { place: n, number });
    }
    None
}

// The same of the word that stands in w, from entry `at` on.
pub fn leftmost_lead_in(index: &[u64; 832], w: &[u64; 3360], at: usize, n: usize) -> Option<Spot>
    requires w_len { (length w.now ≡ 3360) × (at + 6 ≤ 3360) }
    requires packs { Packs n (take 6 (drop at w.now)) }
    ensures { (ls : List Word) → CodeIndexed ls index.now → seen result ≡ spot_of_words ls (unpacked n (take 6 (drop at w.now))) }
{
    spot_in_blocks(index, &w[at..at + 6], n)
}
