// Where a word belongs among the words of the formula.

ghost use Rattle.std.specs.Prelude.{◌≡◌, true, false, ◌≤◌, ◌<◌, MatchResult};
ghost use Rattle.packedterms.specs.Finding.{by_numbers, standing, Sought, BelowFirst, Belonging};

use crate::{PackedWord, WorkingFormula};
use packing::order::compare;
use std::cmp::Ordering;

impl WorkingFormula {
    // How a word of weight x, whose letters are in the first k blocks of v, stands to the word at place s: the weights decide, and then the blocks.
    pub fn compare_at(&self, v: &[u64; 9], x: usize, k: usize, s: usize) -> Ordering
        requires { (k ≤ 6) × (s < 560) }
        ensures { result ≡ by_numbers v.now x k self.now.sizes self.now.blocks s }
    {
        let y = self.sizes[s] as usize / 256;
        match x.cmp(&y) {
            Ordering::Equal => compare(v, 0, &self.blocks, s * 6, k),
            unequal => unequal,
        }
    }

    // The number of the term whose word this is, or else where the word belongs among the others, by halves. It is below the first `from` of them.
    pub fn find(&self, word: &PackedWord<9>, from: usize) -> Result<usize, usize>
        requires sought { Sought word.now.blocks word.now.size self.now.sizes self.now.blocks self.now.places self.now.terms }
        requires below_first { BelowFirst (standing word.now.blocks word.now.size self.now.sizes self.now.blocks self.now.places) from self.now.terms }
        ensures { let S = standing word.now.blocks word.now.size self.now.sizes self.now.blocks self.now.places in
            MatchResult result (λ k. Belonging S self.now.terms k true) (λ k. Belonging S self.now.terms k false) }
    {
        let x = word.size / 256;
        let k = (word.size % 256).div_ceil(12);
        let mut lo = from;
        let mut hi = self.terms;
        while lo < hi {
            let mid = lo + (hi - lo) / 2;
            match self.compare_at(&word.blocks, x, k, usize::from(self.places[mid])) {
                Ordering::Less => lo = mid + 1,
                Ordering::Equal => return Ok(mid),
                Ordering::Greater => hi = mid,
            }
        }
        Err(lo)
    }
}
