// Where a word stands in another.

ghost use Rattle.std.specs.Prelude.{◌≡◌};
ghost use Rattle.words.specs.Place.{stands_at, leftmost};
ghost use Rattle.packedwords.specs.Packed.{unpacked, Packs};

use crate::part::{front, window_at};

// Whether the word of n letters in b stands at place i of the word of m letters in w: block by block, n letters of w from i on.
pub fn stands_at(b: &[u64], n: usize, w: &[u64], m: usize, i: usize) -> bool
    requires { Packs n b.now × Packs m w.now }
    ensures { result ≡ stands_at (unpacked n b.now) (unpacked m w.now) i }
{
    if m < i || m - i < n {
        return false;
    }
    for j in 0..n.div_ceil(12) {
        let k = 12 * j;
        let x = front(window_at(w, i + k), n - k);
        if x != b[j] {
            return false;
        }
    }
    true
}

// The leftmost place of the word of n letters in b in the word of m letters in w.
pub fn leftmost_place(b: &[u64], n: usize, w: &[u64], m: usize) -> Option<usize>
    requires { Packs n b.now × Packs m w.now }
    ensures { result ≡ leftmost (unpacked n b.now) (unpacked m w.now) }
{
    if m < n {
        return None;
    }
    for at in 0..m - n + 1 {
        if stands_at(b, n, w, m, at) {
            return Some(at);
        }
    }
    None
}
