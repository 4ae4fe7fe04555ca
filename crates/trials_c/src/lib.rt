// The functions of crate trials for C and Rust (tests/c/trials.h), in an archive of their own. Each is the one of crate trials that has its
// name, and promises the same.
#![tactic(auto)]

ghost use Rattle.std.specs.Prelude.{◌≡◌};
ghost use Rattle.words.specs.Place.{stands_at, compared_at};
ghost use Rattle.trials.specs.PackedBlocks.{packable, six_blocks};

use trials::Packed;
use wordplaces::place::Stood;

// Whether b stands in w at the place, and how many letters a comparison one by one from the end takes. Any bytes and any place are taken.
#[unsafe(no_mangle)]
pub extern "C" fn vg_trial_stands_at(b: &[u8], w: &[u8], at: usize) -> Stood
    ensures stands_value { result.stands ≡ stands_at b.now w.now at }
    ensures compared_value { result.compared ≡ compared_at b.now w.now at }
{
    trials::vg_trial_stands_at(b, w, at)
}

// w packed, as the services pack it. Any bytes are taken; no, and six zeros, for those that are no word of at most 72 letters `a` to `z`.
#[unsafe(no_mangle)]
pub extern "C" fn vg_trial_pack(w: &[u8]) -> Packed
    ensures fits_value { result.fits ≡ packable w.now }
    ensures blocks_value { result.blocks ≡ six_blocks w.now }
{
    trials::vg_trial_pack(w)
}
