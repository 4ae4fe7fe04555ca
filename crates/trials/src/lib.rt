// Functions below the services that tests call. They are no part of the library: crate trials_c exports them for C and Rust
// (tests/c/trials.h), in an archive of their own.
#![tactic(auto)]

ghost use Rattle.std.specs.Prelude.{◌≡◌};
ghost use Rattle.words.specs.Place.{stands_at, compared_at};
ghost use Rattle.trials.specs.PackedBlocks.{packable, six_blocks};

use linetests::bounds::word_fits;
use tabulating::sections::put_keys;
use wordpacking::pack::pack_word;
use wordplaces::place::{Stood, stands_at};

// Whether bytes are a word that is packed, and the numbers that it is packed into.
#[repr(C)]
#[derive(Clone, Copy)]
pub struct Packed {
    pub fits: bool,
    pub blocks: [u64; 6],
}

// Whether b stands in w at the place, and how many letters a comparison one by one from the end takes. Any bytes and any place are taken.
pub fn vg_trial_stands_at(b: &[u8], w: &[u8], at: usize) -> Stood
    ensures stands_value { result.stands ≡ stands_at b.now w.now at }
    ensures compared_value { result.compared ≡ compared_at b.now w.now at }
{
    stands_at(b, w, at)
}

// w packed by the keys of document 01's order, as the services pack it. Any bytes are taken; no, and six zeros, for those that are no word of at
// most 72 letters `a` to `z`.
pub fn vg_trial_pack(w: &[u8]) -> Packed
    ensures fits_value { result.fits ≡ packable w.now }
    ensures blocks_value { result.blocks ≡ six_blocks w.now }
{
    let mut blocks = [0u64; 6];
    let fits = word_fits(72, 26, w);
    if fits {
        let mut t = [0u64; 3424];
        put_keys(&mut t);
        pack_word(&t, w, 0, w.len(), &mut blocks);
    }
    Packed {
        fits: fits,
        blocks: blocks,
    }
}
