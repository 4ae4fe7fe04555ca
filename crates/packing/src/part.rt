// Parts of a word of at most 72 letters, in six blocks: its first letters, and its letters from a place on.

ghost use Rattle.std.specs.Prelude.{◌≡◌, ◌+◌, ◌-◌, ◌≤◌, ◌<◌, ◌^◌, length, get_or, set, take, drop};
ghost use Rattle.packedwords.specs.Packed.{Blocks, window_of, front, unpacked, Packs};

use crate::block::{down, up};

// Block j of w, and 0 where there is none.
pub fn block_at(w: &[u64], j: usize) -> u64
    requires { Blocks w.now }
    ensures { (result ≡ get_or w.now j 0) × (result < 2 ^ 60) }
{
    if w.len() <= j {
        return 0;
    }
    w[j]
}

// The twelve letters of w from place i on, as a block.
pub fn window_at(w: &[u64], i: usize) -> u64
    requires { Blocks w.now }
    ensures { result ≡ window_of w.now i }
{
    let q = i / 12;
    let s = i % 12 * 5;
    let t = 60 - s;
    let x = block_at(w, q);
    let y = block_at(w, q + 1);
    up(x, s) + down(y, t)
}

// The first r letters of the block x, with zeros behind them.
pub fn front(x: u64, r: usize) -> u64
    ensures { result ≡ front x r }
{
    if r < 12 {
        let t = 60 - r * 5;
        return (x >> t) << t;
    }
    x
}

// Puts the first i letters of the word of m letters in src into dst. A word of at most 24 letters takes two blocks, and no loop is run whose turns
// the processor would have to guess; of a longer one the blocks in which the part stands are made one after the other.
pub fn left_part(dst: &mut [u64; 6], src: &[u64; 6], m: usize, i: usize)
    requires i_le_m { (i ≤ m) × (m ≤ 72) × (length dst.old ≡ 6) × (length src.now ≡ 6) }
    requires packs { Packs m src.now }
    ensures dst_len { (length dst.new ≡ 6) × Packs i dst.new }
    ensures dst_after { unpacked i dst.new ≡ take i (unpacked m src.now) }
{
    *dst = [0; 6];
    if m <= 24 {
        dst[0] = front(src[0], i);
        dst[1] = front(src[1], i.saturating_sub(12));
        return;
    }
    for j in 0..i.div_ceil(12) {
        dst[j] = front(src[j], i - 12 * j);
    }
}

// Puts the twelve letters of src from place i on, and the twelve behind them, into the first two blocks of dst. The place is divided once for both.
fn two_windows(dst: &mut [u64; 6], src: &[u64; 6], i: usize)
    requires { (i ≤ 24) × Blocks src.now × (length src.now ≡ 6) × (length dst.old ≡ 6) }
    ensures { dst.new ≡ set (set dst.old 0 (window_of src.now i)) 1 (window_of src.now (i + 12)) }
{
    let q = i / 12;
    let s = i % 12 * 5;
    let t = 60 - s;
    let x = src[q];
    let y = src[q + 1];
    let z = src[q + 2];
    dst[0] = up(x, s) + down(y, t);
    dst[1] = up(y, s) + down(z, t);
}

// Puts the letters from place i on of the word of m letters in src into dst; of a word of at most 24 letters without a loop, as in `left_part`.
pub fn right_part(dst: &mut [u64; 6], src: &[u64; 6], m: usize, i: usize)
    requires i_le_m { (i ≤ m) × (m ≤ 72) × (length dst.old ≡ 6) × (length src.now ≡ 6) }
    requires packs { Packs m src.now }
    ensures dst_len { (length dst.new ≡ 6) × Packs (m - i) dst.new }
    ensures dst_after { unpacked (m - i) dst.new ≡ drop i (unpacked m src.now) }
{
    *dst = [0; 6];
    if m <= 24 {
        two_windows(dst, src, i);
        return;
    }
    for j in 0..(m - i).div_ceil(12) {
        dst[j] = window_at(src, i + 12 * j);
    }
}
