// The first pairs of the list, kept as numbers, as many as there is room for: who walks the list again need not look for them again.

ghost use Rattle.std.specs.Prelude.{◌≡◌, length, set};
ghost use Rattle.overlapsearch.specs.Kept.{packed_pair, Small};

use crate::PairAt;

// A pair as one number.
#[tactic(auto, unfolding(crate::specs::Kept::packed_pair, crate::specs::Kept::flag_of))]
fn pack_pair(f: PairAt) -> usize
    requires { Small f }
    ensures { result ≡ packed_pair f }
{
    let words = f.first * 64 + f.second;
    let letters = f.shared * 32 + f.at;
    let inside = usize::from(f.inside);
    (words * 1024 + letters) * 2 + inside
}

// The pair of such a number.
pub fn unpack_pair(packed: u32) -> PairAt
    ensures { (f : PairAt) → Small f → packed ≡ packed_pair f → result ≡ f }
{
    let x = packed as usize;
    PairAt {
        inside: x % 2 == 1,
        first: x / 131072,
        second: x / 2048 % 64,
        shared: x / 64 % 32,
        at: x / 2 % 32,
    }
}

// Keeps pair k of the list, counted from 0, where there is room for it.
pub fn keep_pair(kept: &mut [u32], k: usize, f: PairAt)
    requires { Small f }
    ensures { kept.new ≡ set kept.old k (packed_pair f) }
{
    if k < kept.len() {
        kept[k] = pack_pair(f) as u32;
    }
}
