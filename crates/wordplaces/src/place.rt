// Where a word stands in another: w is left × b × right, and the place is the number of left's letters.

ghost use Rattle.std.specs.Prelude.{◌≡◌, false};
ghost use Rattle.words.specs.Place.{stands_at, compared_at};

use crate::eight_letters::eights_left;
use crate::two_letters::two_same;

// Whether a word stands at a place of another, and how many letters a comparison one by one from the end takes. (C reads it in the
// archive of crate trials.)
#[repr(C)]
#[derive(Clone, Copy)]
pub struct Stood {
    pub stands: bool,
    pub compared: usize,
}

// A no, after so many letters.
fn not_standing(compared: usize) -> Stood
    ensures { (result.stands ≡ false) × (result.compared ≡ compared) }
{
    Stood {
        stands: false,
        compared: compared,
    }
}

// Whether b stands in w at the place, compared from b's last letter back to the first that differs: eight letters at once as long as they
// are the same, then two at once as long as there are two. Where the two differ the later one is looked at first.
pub fn stands_at(b: &[u8], w: &[u8], at: usize) -> Stood
    ensures stands_value { result.stands ≡ stands_at b.now w.now at }
    ensures compared_value { result.compared ≡ compared_at b.now w.now at }
{
    if w.len() < at || w.len() - at < b.len() {
        return not_standing(0);
    }
    // A `while`, as the walk is from the end in steps of two, and one letter may be left.
    let mut n = eights_left(b, w, at);
    while n > 1 {
        let k = n - 2;
        if !two_same(b, k, w, at + k) {
            let i = n - 1;
            if b[i] != w[at + i] {
                return not_standing(b.len() - i);
            }
            return not_standing(b.len() - k);
        }
        n = k;
    }
    if n > 0 {
        if b[0] != w[at] {
            return not_standing(b.len());
        }
    }
    Stood {
        stands: true,
        compared: b.len(),
    }
}
