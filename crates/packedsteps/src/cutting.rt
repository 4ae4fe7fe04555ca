// A word of the formula, cut where a leading word stands in it.

ghost use Rattle.std.specs.Prelude.{◌≡◌, ◌<◌, get_or};
ghost use Rattle.algebra.specs.Spot.{spot, found};
ghost use Rattle.table.specs.Table.{first_in, size_in};
ghost use Rattle.table.specs.Polynomials.{basis_in};
ghost use Rattle.table.specs.Tabled.{Tabled};
ghost use Rattle.packedterms.specs.Formula.{blocks_at};
ghost use Rattle.packedterms.specs.InFormula.{letters_in, SixfoldIn};
ghost use Rattle.packedsteps.specs.Cuts.{CutAt};

use packedterms::{PackedWord, WorkingFormula};
use packing::part::{left_part, right_part};
use table::Table;
use table::numbers::{first_in, gens_in, size_in};

// The word at place s, copied: where the sum is made it does not stay.
pub fn take_place(f: &WorkingFormula, s: usize) -> PackedWord<6>
    requires { s < 560 }
    ensures { (result.blocks ≡ blocks_at f.now.blocks s) × (result.size ≡ get_or f.now.sizes s 0) }
{
    let at = s * 6;
    let mut blocks = [0; 6];
    blocks.copy_from_slice(&f.blocks[at..at + 6]);
    PackedWord {
        blocks,
        size: f.sizes[s] as usize,
    }
}

// The size of the word of an item's leading term.
fn lead_size(t: &Table, item: usize) -> usize
    requires { (item < 130) × (first_in t.now item < 1024) }
    ensures { result ≡ size_in t.now (first_in t.now item) }
{
    let first = first_in(t, item);
    size_in(t, first)
}

// Cuts a word where the leading word of basis polynomial `of` stands in it at place i. What stands left and right of that goes to left and right; the
// answer is the item that the leading word leads. Each letter weighs 1, so that a size is 257 × letters.
pub fn cut(
    t: &Table,
    word: &PackedWord<6>,
    i: usize,
    of: usize,
    left: &mut PackedWord<6>,
    right: &mut PackedWord<6>,
) -> usize
    requires tabled { Tabled t.now × SixfoldIn t.now word.now }
    requires word_value { spot (basis_in t.now) (letters_in t.now word.now) ≡ found i of }
    ensures { CutAt t.now (letters_in t.now word.now) word.now.size i of result left.new right.new }
{
    let item = gens_in(t) + of;
    let e = lead_size(t, item);
    let m = word.size % 256;
    left_part(&mut left.blocks, &word.blocks, m, i);
    right_part(&mut right.blocks, &word.blocks, m, i + e % 256);
    let a = 257 * i;
    left.size = a;
    right.size = word.size - e - a;
    item
}
