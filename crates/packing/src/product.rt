// Products of words, made in a room of nine blocks. A product has at most 72 letters, which take six; the others are for the blocks of zeros that a
// store without a test puts behind them.

ghost use Rattle.std.specs.Prelude.{◌≡◌, ◌++◌, ◌+◌, ◌≤◌, ◌<◌, length, take, drop, replicate};
ghost use Rattle.std.proofs.lemmas.List.Edits.{sets};
ghost use Rattle.words.specs.Word.{around};
ghost use Rattle.packedwords.specs.Packed.{unpacked, Packs};

use crate::block::{down, up};

// Copies the six blocks at the front of src to dst, from block `at` on. (Not by `copy_from_slice`, which asks whether the two overlap and is slower.)
pub fn copy_place(dst: &mut [u64], at: usize, src: &[u64])
    requires { (at + 6 ≤ length dst.old) × (6 ≤ length src.now) }
    ensures { dst.new ≡ sets dst.old at (take 6 src.now) }
{
    let a = src[0];
    let b = src[1];
    let c = src[2];
    let d = src[3];
    let e = src[4];
    let f = src[5];
    dst[at] = a;
    dst[at + 1] = b;
    dst[at + 2] = c;
    dst[at + 3] = d;
    dst[at + 4] = e;
    dst[at + 5] = f;
}

// Puts the six blocks of src into dst, with zeros behind them.
pub fn begin(dst: &mut [u64; 9], src: &[u64; 6])
    requires { (length dst.old ≡ 9) × (length src.now ≡ 6) }
    ensures { (length dst.new ≡ 9) × (take 6 dst.new ≡ src.now) × (drop 6 dst.new ≡ replicate 3 0) }
{
    *dst = [src[0], src[1], src[2], src[3], src[4], src[5], 0, 0, 0];
}

// Puts the word of n letters in two blocks of src, from block `from` on, behind the word of m letters in dst. The answer is m + n.
pub fn append(dst: &mut [u64; 9], m: usize, src: &[u64], from: usize, n: usize) -> usize
    requires n_bound { (m + n ≤ 72) × (n ≤ 24) × (length dst.old ≡ 9) × (from + 2 ≤ length src.now) }
    requires packs { Packs m dst.old × Packs n (take 2 (drop from src.now)) }
    ensures value { (result ≡ m + n) × (length dst.new ≡ 9) × Packs result dst.new }
    ensures dst_after { unpacked result dst.new ≡ unpacked m dst.old ++ unpacked n (take 2 (drop from src.now)) }
{
    let q = m / 12;
    let s = m % 12 * 5;
    let t = 60 - s;
    let x = src[from];
    let y = src[from + 1];
    let a = dst[q] + down(x, s);
    let b = up(x, t) + down(y, s);
    let c = up(y, t);
    dst[q] = a;
    dst[q + 1] = b;
    dst[q + 2] = c;
    m + n
}

// Puts the word of n letters in src behind the word of m letters in dst, 24 letters at a time. The answer is m + n.
pub fn append_long(dst: &mut [u64; 9], m: usize, src: &[u64; 6], n: usize) -> usize
    requires n_bound { (m + n ≤ 72) × (length dst.old ≡ 9) × (length src.now ≡ 6) }
    requires packs { Packs m dst.old × Packs n src.now }
    ensures value { (result ≡ m + n) × (length dst.new ≡ 9) × Packs result dst.new }
    ensures dst_after { unpacked result dst.new ≡ unpacked m dst.old ++ unpacked n src.now }
{
    // A `while`, as no range is walked: the last letters, 24 or fewer, are put behind the loop.
    let mut e = m;
    let mut j = 0;
    let mut left = n;
    while 24 < left {
        e = append(dst, e, src, j, 24);
        j += 2;
        left -= 24;
    }
    append(dst, e, src, j, left)
}

// As `begin_with`, where left has fewer than twelve letters: they are all in its first block, so the product's blocks are made without reading dst.
fn begin_short(
    dst: &mut [u64; 9],
    left: &[u64; 6],
    a: usize,
    word: &[u64],
    from: usize,
    n: usize,
) -> usize
    requires a_bound { (a < 12) × (n ≤ 24) × (length dst.old ≡ 9) × (from + 2 ≤ length word.now) }
    requires packs { Packs a left.now × Packs n (take 2 (drop from word.now)) }
    ensures value { (result ≡ a + n) × (length dst.new ≡ 9) × Packs result dst.new }
    ensures dst_after { unpacked result dst.new ≡ unpacked a left.now ++ unpacked n (take 2 (drop from word.now)) }
{
    let s = a * 5;
    let t = 60 - a * 5;
    let x = word[from];
    let y = word[from + 1];
    let first = left[0] + down(x, s);
    let second = up(x, t) + down(y, s);
    let third = up(y, t);
    *dst = [first, second, third, 0, 0, 0, 0, 0, 0];
    a + n
}

// Makes left × word in dst: the a letters in left, and the n letters in two blocks of word from block `from` on. The answer is a + n.
fn begin_with(
    dst: &mut [u64; 9],
    left: &[u64; 6],
    a: usize,
    word: &[u64],
    from: usize,
    n: usize,
) -> usize
    requires n_bound { (a + n ≤ 72) × (n ≤ 24) × (length dst.old ≡ 9) × (length left.now ≡ 6) × (from + 2 ≤ length word.now) }
    requires packs { Packs a left.now × Packs n (take 2 (drop from word.now)) }
    ensures value { (result ≡ a + n) × (length dst.new ≡ 9) × Packs result dst.new }
    ensures dst_after { unpacked result dst.new ≡ unpacked a left.now ++ unpacked n (take 2 (drop from word.now)) }
{
    if a < 12 {
        return begin_short(dst, left, a, word, from, n);
    }
    begin(dst, left);
    append(dst, a, word, from, n)
}

// Makes left × word × right in dst: the a letters in left, the n letters in two blocks of word from block `from` on, and the b letters in right.
// The answer is how many letters the product has.
pub fn compose(
    dst: &mut [u64; 9],
    left: &[u64; 6],
    a: usize,
    word: &[u64],
    from: usize,
    n: usize,
    right: &[u64; 6],
    b: usize,
) -> usize
    requires b_bound { (a + n + b ≤ 72) × (n ≤ 24) × (length dst.old ≡ 9) }
    requires left_len { (length left.now ≡ 6) × (from + 2 ≤ length word.now) × (length right.now ≡ 6) }
    requires packs { Packs a left.now × Packs n (take 2 (drop from word.now)) × Packs b right.now }
    ensures value { (result ≡ a + n + b) × (length dst.new ≡ 9) × Packs result dst.new }
    ensures dst_after { unpacked result dst.new
        ≡ around (unpacked a left.now) (unpacked b right.now) (unpacked n (take 2 (drop from word.now))) }
{
    let e = begin_with(dst, left, a, word, from, n);
    if b == 0 {
        return e;
    }
    if b <= 24 {
        return append(dst, e, right, 0, b);
    }
    append_long(dst, e, right, b)
}
