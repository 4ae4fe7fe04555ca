// A multiple taken away whose leading term is a term of the formula: what a step does.

ghost use Rattle.std.specs.Prelude.{◌≡◌, suc, ◌+◌, ◌≤◌, ◌<◌};
ghost use Rattle.algebra.specs.Poly.{scale, shift};
ghost use Rattle.algebra.specs.Written.{plus};
ghost use Rattle.table.specs.Polynomials.{polynomial_in};
ghost use Rattle.table.specs.Table.{prime_in, field_in, order_in, items_in, first_in};
ghost use Rattle.table.specs.Tabled.{Tabled};
ghost use Rattle.packedterms.specs.InFormula.{term_in, formula_in, WorkingIn, letters_in, SixfoldIn};
ghost use Rattle.itemadding.specs.Fits.{Fits};
ghost use Rattle.itemadding.specs.LeadPlace.{LeadPlace};

use crate::replacing::replace_item;
use packedterms::{PackedWord, WorkingFormula};
use table::Table;
use table::numbers::first_in;

// Takes x × left × polynomial × right away from the formula as `take_item` does, where x × left × leading term × right is term k: the two cancel each
// other. The next term takes the place of term k, and the others are searched for from there on. Each product is made in `product`.
pub fn cancel_term(
    t: &Table,
    x: u32,
    left: &PackedWord<6>,
    item: usize,
    right: &PackedWord<6>,
    f: &mut WorkingFormula,
    k: usize,
    product: &mut PackedWord<9>,
)
    requires tabled { Tabled t.now × (x < prime_in t.now) × (1 ≤ item) × (item ≤ items_in t.now) × (f.old.terms + 48 ≤ 560) }
    requires sixfold { SixfoldIn t.now left.now
        × SixfoldIn t.now right.now
        × Fits t.now left.now.size right.now.size (first_in t.now item) (first_in t.now (suc item)) }
    requires working { WorkingIn t.now f.old }
    requires lead_place { (k < f.old.terms)
        × LeadPlace (field_in t.now) x (letters_in t.now left.now) (letters_in t.now right.now) (polynomial_in t.now item) (term_in t.now f.old k) }
    ensures upper_bound { f.new.terms ≤ f.old.terms + 48 }
    ensures working_2 { WorkingIn t.now f.new }
    ensures taken { formula_in t.now f.new
        ≡ plus (field_in t.now) (order_in t.now) (formula_in t.now f.old)
        (scale (field_in t.now) ((field_in t.now).neg x)
        (shift (letters_in t.now left.now) (letters_in t.now right.now) (polynomial_in t.now item))) }
{
    let first = first_in(t, item);
    let end = first_in(t, item + 1);
    if first + 1 < end {
        replace_item(t, x, left, item, right, f, k, product);
    } else {
        f.drop_term(k);
    }
}
