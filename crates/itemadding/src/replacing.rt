// A multiple taken away whose leading term cancels a term of the formula.

ghost use Rattle.std.specs.Prelude.{◌≡◌, suc, ◌+◌, ◌≤◌, ◌<◌, drop};
ghost use Rattle.words.specs.Word.{around};
ghost use Rattle.algebra.specs.Poly.{scale, shift};
ghost use Rattle.algebra.specs.Written.{plus};
ghost use Rattle.working.specs.Change.{without};
ghost use Rattle.table.specs.Polynomials.{word_in, polynomial_in};
ghost use Rattle.table.specs.Table.{prime_in, field_in, order_in, items_in, first_in};
ghost use Rattle.table.specs.Tabled.{Tabled};
ghost use Rattle.packedterms.specs.Behind.{Behind};
ghost use Rattle.packedterms.specs.InFormula.{term_in, formula_in, WorkingIn, letters_in, SixfoldIn};
ghost use Rattle.itemadding.specs.Fits.{Fits};

use crate::building::build;
use crate::coefficients::opposite_coef;
use crate::taking::take_item;
use packedterms::{PackedWord, WorkingFormula};
use table::Table;
use table::numbers::first_in;

// Takes x × left × polynomial × right away from the formula, without the leading terms of both: that of the polynomial, and term k. The polynomial is
// that of an item, and has a second term, whose product is below the word of term k and takes its place. Each product is made in `product`.
pub fn replace_item(
    t: &Table,
    x: u32,
    left: &PackedWord<6>,
    item: usize,
    right: &PackedWord<6>,
    f: &mut WorkingFormula,
    k: usize,
    product: &mut PackedWord<9>,
)
    requires tabled { Tabled t.now × (x < prime_in t.now) × (1 ≤ item) × (item ≤ items_in t.now) × (f.old.terms + 48 ≤ 560) }
    requires sixfold { SixfoldIn t.now left.now
        × SixfoldIn t.now right.now
        × Fits t.now left.now.size right.now.size (first_in t.now item) (first_in t.now (suc item)) }
    requires working { WorkingIn t.now f.old × (k < f.old.terms) × (first_in t.now item + 1 < first_in t.now (suc item)) }
    requires behind { Behind (order_in t.now) (around (letters_in t.now left.now) (letters_in t.now right.now) (word_in t.now (first_in t.now item + 1)))
        (k + 1) (formula_in t.now f.old) }
    ensures upper_bound { f.new.terms ≤ f.old.terms + 48 }
    ensures working_2 { WorkingIn t.now f.new }
    ensures taken { formula_in t.now f.new
        ≡ plus (field_in t.now) (order_in t.now)
        (without (term_in t.now f.old) f.old.terms k)
        (scale (field_in t.now) ((field_in t.now).neg x)
        (shift (letters_in t.now left.now) (letters_in t.now right.now)
        (drop 1 (polynomial_in t.now item)))) }
{
    let i = first_in(t, item) + 1;
    let z = opposite_coef(t, x, i);
    build(t, i, left, right, product);
    let at = f.replace_term(t, z, product, k);
    let end = first_in(t, item + 1);
    if i + 1 < end {
        take_item(t, x, left, item, 2, right, f, at, product);
    }
}
