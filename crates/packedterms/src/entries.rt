// Terms of the formula moved by their entries, and numbers stored at a place.

ghost use Rattle.std.specs.Prelude.{◌≡◌, ◌+◌, ◌-◌, ◌≤◌, ◌<◌, length, get_or, take};
ghost use Rattle.working.specs.Rotation.{Moved, rotated_right, rotated_left};
ghost use Rattle.packedterms.specs.Change.{Stored};
ghost use Rattle.packedterms.specs.InFormula.{SameNumbers};

use crate::{PackedWord, WorkingFormula};
use packing::product::copy_place;
use working::entries::{rotate_left, rotate_right};

impl WorkingFormula {
    // Stores the coefficient x and a word of the size, which is in the first six of the blocks, at the place that entry i names.
    pub fn put_blocks(&mut self, i: usize, x: u32, size: usize, blocks: &[u64])
        requires { (i < 560) × (get_or self.old.places i 0 < 560) × (size < 4294967296) × (6 ≤ length blocks.now) }
        ensures stored { Stored self.old.coefs self.old.sizes self.old.blocks (get_or self.old.places i 0) x size (take 6 blocks.now)
            self.new.coefs self.new.sizes self.new.blocks }
        ensures entries { (self.new.places ≡ self.old.places) × (self.new.terms ≡ self.old.terms) }
    {
        let s = usize::from(self.places[i]);
        self.coefs[s] = x;
        self.sizes[s] = size as u32;
        copy_place(&mut self.blocks, s * 6, blocks);
    }

    // Stores the coefficient x and the word, of which six blocks count, at the place that entry i names.
    pub fn put_at<const N: usize>(&mut self, i: usize, x: u32, word: &PackedWord<N>)
        requires { (i < 560) × (get_or self.old.places i 0 < 560) × (word.now.size < 4294967296) × (6 ≤ N) }
        ensures stored { Stored self.old.coefs self.old.sizes self.old.blocks (get_or self.old.places i 0) x word.now.size (take 6 word.now.blocks)
            self.new.coefs self.new.sizes self.new.blocks }
        ensures entries { (self.new.places ≡ self.old.places) × (self.new.terms ≡ self.old.terms) }
    {
        self.put_blocks(i, x, word.size, &word.blocks);
    }

    // Puts a term behind the others: the coefficient x and the word, of which six blocks count, at the first free place.
    pub fn put_last<const N: usize>(&mut self, x: u32, word: &PackedWord<N>)
        requires { (self.old.terms < 560) × (get_or self.old.places self.old.terms 0 < 560) × (word.now.size < 4294967296) × (6 ≤ N) }
        ensures stored { Stored self.old.coefs self.old.sizes self.old.blocks (get_or self.old.places self.old.terms 0) x word.now.size
            (take 6 word.now.blocks) self.new.coefs self.new.sizes self.new.blocks }
        ensures entries { (self.new.places ≡ self.old.places) × (self.new.terms ≡ self.old.terms + 1) }
    {
        let n = self.terms;
        self.put_at(n, x, word);
        self.terms = n + 1;
    }

    // Entry n goes to k, and those from k on one to the right.
    pub fn move_right(&mut self, k: usize, n: usize)
        requires { (k ≤ n) × (n < 560) }
        ensures moved { Moved (rotated_right k n) self.old.places self.new.places }
        ensures same { SameNumbers self.old self.new × (self.new.terms ≡ self.old.terms) }
    {
        rotate_right(&mut self.places, k, n);
    }

    // Entry k goes to m, and those behind it, up to m, one to the left.
    pub fn move_left(&mut self, k: usize, m: usize)
        requires { (k ≤ m) × (m < 560) }
        ensures moved { Moved (rotated_left k m) self.old.places self.new.places }
        ensures same { SameNumbers self.old self.new × (self.new.terms ≡ self.old.terms) }
    {
        rotate_left(&mut self.places, k, m);
    }

    // Leaves term k out: its entry goes behind those of the others.
    pub fn drop_term(&mut self, k: usize)
        requires { (k < self.old.terms) × (self.old.terms ≤ 560) }
        ensures moved { Moved (rotated_left k (self.old.terms - 1)) self.old.places self.new.places }
        ensures same { SameNumbers self.old self.new × (self.new.terms ≡ self.old.terms - 1) }
    {
        let last = self.terms - 1;
        self.move_left(k, last);
        self.terms = last;
    }
}
