// A multiple taken away from the formula.

ghost use Rattle.std.specs.Prelude.{◌≡◌, suc, ◌+◌, ◌≤◌, ◌<◌, drop};
ghost use Rattle.algebra.specs.Poly.{scale, shift};
ghost use Rattle.algebra.specs.Written.{plus};
ghost use Rattle.table.specs.Polynomials.{polynomial_in};
ghost use Rattle.table.specs.Table.{prime_in, field_in, order_in, items_in, first_in};
ghost use Rattle.table.specs.Tabled.{Tabled};
ghost use Rattle.packedterms.specs.InFormula.{formula_in, WorkingIn, letters_in, SixfoldIn};
ghost use Rattle.itemadding.specs.Fits.{Fits};
ghost use Rattle.itemadding.specs.Lower.{Lower};

use crate::building::build;
use crate::coefficients::opposite_coef;
use packedterms::{PackedWord, WorkingFormula};
use table::Table;
use table::numbers::first_in;

// Takes x × left × polynomial × right away from the formula, where the polynomial is that of an item without its first `skip` terms. The products are
// below the words of the first `from` terms; they fall, so each is searched for behind the one before it. Each is made in `product`.
pub fn take_item(
    t: &Table,
    x: u32,
    left: &PackedWord<6>,
    item: usize,
    skip: usize,
    right: &PackedWord<6>,
    f: &mut WorkingFormula,
    from: usize,
    product: &mut PackedWord<9>,
)
    requires tabled { Tabled t.now × (x < prime_in t.now) × (1 ≤ item) × (item ≤ items_in t.now) × (skip ≤ 48) × (f.old.terms + 48 ≤ 560) }
    requires sixfold { SixfoldIn t.now left.now
        × SixfoldIn t.now right.now
        × Fits t.now left.now.size right.now.size (first_in t.now item) (first_in t.now (suc item)) }
    requires working { WorkingIn t.now f.old
        × Lower t.now (letters_in t.now left.now) (letters_in t.now right.now) (first_in t.now item + skip) (first_in t.now (suc item)) from
        (formula_in t.now f.old) }
    ensures upper_bound { f.new.terms ≤ f.old.terms + 48 }
    ensures working_2 { WorkingIn t.now f.new }
    ensures taken { formula_in t.now f.new
        ≡ plus (field_in t.now) (order_in t.now) (formula_in t.now f.old)
        (scale (field_in t.now) ((field_in t.now).neg x)
        (shift (letters_in t.now left.now) (letters_in t.now right.now)
        (drop skip (polynomial_in t.now item)))) }
{
    let first = first_in(t, item) + skip;
    let end = first_in(t, item + 1);
    let mut low = from;
    for i in first..end {
        let z = opposite_coef(t, x, i);
        build(t, i, left, right, product);
        low = f.add_term(t, z, product, low);
    }
}
