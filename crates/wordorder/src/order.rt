// Document 01, 'Words and polynomials': the longer word is greater; at equal length the first
// differing letter decides, and a is greater than b, b than c.

ghost use Rattle.std.specs.Prelude.{◌≡◌, ◌+◌, ◌≤◌, length};
ghost use Rattle.words.specs.Order.{word_order};
ghost use Rattle.words.specs.Below.{is_below};
ghost use Rattle.wordorder.specs.Block.{block_at};

use std::cmp::Ordering;

// Eight letters from place i on, as one number, the first as the highest byte.
fn block(u: &[u8], i: usize) -> u64
    requires { i + 8 ≤ length u.now }
    ensures { result ≡ block_at u.now i }
{
    u64::from_be_bytes([
        u[i],
        u[i + 1],
        u[i + 2],
        u[i + 3],
        u[i + 4],
        u[i + 5],
        u[i + 6],
        u[i + 7],
    ])
}

// How u stands to v.
pub fn compare(u: &[u8], v: &[u8]) -> Ordering
    ensures { result ≡ word_order u.now v.now }
{
    if u.len() < v.len() {
        return Ordering::Less;
    }
    if v.len() < u.len() {
        return Ordering::Greater;
    }
    // Blocks, and not `v.cmp(u)`, which takes a tenth longer from eight letters on; a `while`, as the rest behind the blocks starts at i.
    let mut i = 0;
    while i + 8 <= u.len() {
        let x = block(u, i);
        let y = block(v, i);
        if x != y {
            // The greater number has the later letter, so it is the lower word's.
            return y.cmp(&x);
        }
        i += 8;
    }
    for j in i..u.len() {
        if u[j] != v[j] {
            return v[j].cmp(&u[j]);
        }
    }
    Ordering::Equal
}

// Whether the word u is below v.
pub fn is_below(u: &[u8], v: &[u8]) -> bool
    ensures { result ≡ is_below u.now v.now }
{
    compare(u, v).is_lt()
}
