// A word of a text, packed into six blocks.

ghost use Rattle.std.specs.Prelude.{◌≡◌, map, ◌+◌, ◌*◌, ◌%◌, ◌≤◌, ◌<◌, length, take, drop};
ghost use Rattle.lists.specs.All.{All};
ghost use Rattle.words.specs.Word.{Letter};
ghost use Rattle.words.specs.Weighted.{weight};
ghost use Rattle.packedwords.specs.Packed.{window, packed, unpacked};
ghost use Rattle.table.specs.Table.{code_in, key_weight_in};
ghost use Rattle.table.specs.Words.{Keys, Sixfold, word_of};

use packing::part::front;
use table::Table;
use table::numbers::key_in;

// The r letters of text from `at` on as one block, with zeros behind them: letter by letter.
fn pack_letters(t: &Table, text: &[u8], at: usize, r: usize) -> u64
    requires { (at + r ≤ length text.now) × (r ≤ 12) }
    ensures { result ≡ window (map (code_in t.now) (take r (drop at text.now))) 0 }
{
    let mut x = 0u64;
    for &b in &text[at..at + r] {
        let key = key_in(t, b);
        x = x * 32 + key % 32;
    }
    x << (60 - 5 * r)
}

// The same block. Of six letters or more, where the text goes on for twelve, all twelve are packed, whatever stands behind the r, and those behind are
// cut away: so the number of turns is fixed, and the processor has none to guess. Fewer letters are packed sooner than twelve.
fn pack_some(t: &Table, text: &[u8], at: usize, r: usize) -> u64
    requires { (at + r ≤ length text.now) × (r ≤ 12) }
    ensures { result ≡ window (map (code_in t.now) (take r (drop at text.now))) 0 }
{
    if r < 6 {
        return pack_letters(t, text, at, r);
    }
    if text.len() - at < 12 {
        return pack_letters(t, text, at, r);
    }
    front(pack_letters(t, text, at, 12), r)
}

// The same block; where there is no letter, as on one side of most sum lines, nothing is called.
fn pack_block(t: &Table, text: &[u8], at: usize, r: usize) -> u64
    requires { (at + r ≤ length text.now) × (r ≤ 12) }
    ensures { result ≡ window (map (code_in t.now) (take r (drop at text.now))) 0 }
{
    if r == 0 {
        return 0;
    }
    pack_some(t, text, at, r)
}

// The size of a word of n letters, 256 × weight + letters: each letter weighs 1, so that a size is 257 × letters.
fn even_size(n: usize) -> usize
    requires { n ≤ 72 }
    ensures { result ≡ 257 * n }
{
    257 * n
}

// The n letters of text from `from` on, as six blocks. The answer is the word's size.
fn pack_long(t: &Table, text: &[u8], from: usize, n: usize, dst: &mut [u64; 6]) -> usize
    requires keys { Keys t.now × (from + n ≤ length text.now) × (n ≤ 72) }
    requires all { All (Letter 26) (take n (drop from text.now)) × (length dst.old ≡ 6) }
    ensures value { result ≡ 256 * weight (key_weight_in t.now) (take n (drop from text.now)) + n }
    ensures dst_after { dst.new ≡ packed 6 (map (code_in t.now) (take n (drop from text.now))) }
{
    for j in 0..6 {
        let i = (12 * j).min(n);
        let r = (n - i).min(12);
        dst[j] = pack_block(t, text, from + i, r);
    }
    even_size(n)
}

// The n letters of text from `from` on, at most 24, as six blocks, of which four are zeros. The answer is the word's size.
fn pack_short(t: &Table, text: &[u8], from: usize, n: usize, dst: &mut [u64; 6]) -> usize
    requires keys { Keys t.now × (from + n ≤ length text.now) × (n ≤ 24) }
    requires all { All (Letter 26) (take n (drop from text.now)) × (length dst.old ≡ 6) }
    ensures value { result ≡ 256 * weight (key_weight_in t.now) (take n (drop from text.now)) + n }
    ensures dst_after { dst.new ≡ packed 6 (map (code_in t.now) (take n (drop from text.now))) }
{
    let r = n.min(12);
    let first = pack_block(t, text, from, r);
    let second = pack_block(t, text, from + r, n - r);
    *dst = [first, second, 0, 0, 0, 0];
    even_size(n)
}

// Packs the n letters of text from `from` on into the six blocks of dst, by the keys of the table. The answer is the word's size.
pub fn pack_word(t: &Table, text: &[u8], from: usize, n: usize, dst: &mut [u64; 6]) -> usize
    requires keys { Keys t.now × (from + n ≤ length text.now) × (n ≤ 72) }
    requires all { All (Letter 26) (take n (drop from text.now)) × (length dst.old ≡ 6) }
    ensures value { (result ≡ 256 * weight (key_weight_in t.now) (take n (drop from text.now)) + n) × (result % 256 ≡ n) × (result < 4294967296) }
    ensures dst_after { dst.new ≡ packed 6 (map (code_in t.now) (take n (drop from text.now))) }
    ensures dst_after_2 { unpacked n dst.new ≡ map (code_in t.now) (take n (drop from text.now)) }
    ensures sixfold { Sixfold t.now result dst.new }
    ensures dst_after_3 { word_of t.now result dst.new ≡ take n (drop from text.now) }
{
    if 24 < n {
        return pack_long(t, text, from, n, dst);
    }
    pack_short(t, text, from, n, dst)
}
