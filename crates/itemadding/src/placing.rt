// A multiple of a polynomial as the whole formula. Its words fall as those of the polynomial do, so its terms are put one behind the other without a search.

ghost use Rattle.std.specs.Prelude.{◌≡◌, suc, ◌≤◌, ◌<◌};
ghost use Rattle.algebra.specs.Poly.{scale, shift};
ghost use Rattle.working.specs.Working.{Arranged};
ghost use Rattle.table.specs.Polynomials.{polynomial_in};
ghost use Rattle.table.specs.Table.{prime_in, field_in, items_in, first_in};
ghost use Rattle.table.specs.Tabled.{Tabled};
ghost use Rattle.packedterms.specs.InFormula.{formula_in, HoldsIn, letters_in, SixfoldIn};
ghost use Rattle.itemadding.specs.Fits.{Fits};

use crate::building::build;
use crate::coefficients::scaled_coef;
use packedterms::{PackedWord, WorkingFormula};
use table::Table;
use table::numbers::first_in;

// Whatever the formula was, it then is x × left × polynomial × right, where the polynomial is that of an item. Each product is made in `product`.
pub fn place_item(
    t: &Table,
    x: u32,
    left: &PackedWord<6>,
    item: usize,
    right: &PackedWord<6>,
    f: &mut WorkingFormula,
    product: &mut PackedWord<9>,
)
    requires tabled { Tabled t.now × (x < prime_in t.now) × (1 ≤ item) × (item ≤ items_in t.now) }
    requires sixfold { SixfoldIn t.now left.now
        × SixfoldIn t.now right.now
        × Fits t.now left.now.size right.now.size (first_in t.now item) (first_in t.now (suc item)) }
    requires arranged { Arranged f.old.places }
    ensures upper_bound { f.new.terms ≤ 48 }
    ensures holds { HoldsIn t.now f.new }
    ensures placed { formula_in t.now f.new
        ≡ scale (field_in t.now) x
        (shift (letters_in t.now left.now) (letters_in t.now right.now) (polynomial_in t.now item)) }
{
    let first = first_in(t, item);
    let end = first_in(t, item + 1);
    f.terms = 0;
    for i in first..end {
        let z = scaled_coef(t, x, i);
        build(t, i, left, right, product);
        f.put_last(z, product);
    }
}
