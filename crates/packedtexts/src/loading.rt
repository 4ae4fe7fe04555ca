// A formula that was read, brought into the packed working arrays.

ghost use Rattle.std.specs.Prelude.{◌≡◌, [], ◌∷◌, ◌++◌, ℕ, ◌+◌, ◌≤◌, ◌<◌, length, take, drop};
ghost use Rattle.lists.specs.All.{All};
ghost use Rattle.words.specs.Word.{Letter};
ghost use Rattle.words.specs.Laid.{laid_word};
ghost use Rattle.algebra.specs.Written.{Written};
ghost use Rattle.working.specs.Change.{single};
ghost use Rattle.working.specs.Polynomial.{poly_at, Given};
ghost use Rattle.table.specs.Table.{prime_in, field_in, order_in};
ghost use Rattle.table.specs.Tabled.{Tabled};
ghost use Rattle.table.specs.Words.{Keys};
ghost use Rattle.packedterms.specs.InFormula.{formula_in, HoldsIn, WorkingIn};

use packedterms::{PackedWord, WorkingFormula};
use table::Table;
use wordpacking::pack::pack_word;
use working::formula::start;

// Puts a term behind the others: the coefficient x, and the word of e letters of text from `from` on.
fn append_term(t: &Table, x: u32, text: &[u8], from: usize, e: usize, f: &mut WorkingFormula)
    requires keys { Keys t.now × (from + e ≤ length text.now) × (e ≤ 72) × All (Letter 26) (take e (drop from text.now)) }
    requires holds { HoldsIn t.now f.old × (f.old.terms < 560) }
    ensures terms { f.new.terms ≡ f.old.terms + 1 }
    ensures holds_2 { HoldsIn t.now f.new }
    ensures appended { formula_in t.now f.new ≡ formula_in t.now f.old ++ (single x (take e (drop from text.now)) ∷ []) }
{
    let mut word = PackedWord::<6>::EMPTY;
    word.size = pack_word(t, text, from, e, &mut word.blocks);
    f.put_last(x, &word);
}

// The formula lies in a text: coefficients fc, and words of fl letters from fs on. Whatever the arrays held, they then hold it.
pub fn load(t: &Table, fc: &[u32], fs: &[usize], fl: &[usize], text: &[u8], f: &mut WorkingFormula)
    requires tabled { Tabled t.now × Given (prime_in t.now) fc.now fs.now fl.now text.now × (length fc.now ≤ 512) }
    requires by_index { (i : ℕ) → i < length fc.now → All (Letter 26) (laid_word fs.now fl.now text.now i) }
    requires written { Written (field_in t.now) (order_in t.now) (poly_at fc.now fs.now fl.now text.now) }
    ensures value { f.new.terms ≡ length fc.now }
    ensures working { WorkingIn t.now f.new }
    ensures loaded { formula_in t.now f.new ≡ poly_at fc.now fs.now fl.now text.now }
{
    start(&mut f.places);
    f.terms = 0;
    for (j, &x) in fc.iter().enumerate() {
        append_term(t, x, text, fs[j], fl[j], f);
    }
}
