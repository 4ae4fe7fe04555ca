// One step: at a term in whose word a leading word stands, the multiple of the polynomial that has this term is taken away.

ghost use Rattle.std.specs.Prelude.{◌≡◌, ◌+◌, ◌≤◌, ◌<◌};
ghost use Rattle.algebra.specs.Spot.{spot, found};
ghost use Rattle.algebra.specs.Steps.{stepped};
ghost use Rattle.table.specs.Table.{field_in, order_in};
ghost use Rattle.table.specs.Polynomials.{basis_in};
ghost use Rattle.table.specs.Tabled.{Tabled};
ghost use Rattle.packedterms.specs.InFormula.{term_in, formula_in, WorkingIn};
ghost use Rattle.packedsteps.specs.Lines.{LineTaken};

use crate::Target;
use crate::cutting::{cut, take_place};
use crate::dividing::divide;
use itemadding::leading_term::cancel_term;
use packedterms::{PackedWord, WorkingFormula};
use table::Table;

// The step at the target's term, where the leading word of the basis polynomial of its number stands at its place. The answer is the coefficient of the
// line that was taken away, whose words left and right then hold. Each product is made in `product`.
pub fn step(
    t: &Table,
    f: &mut WorkingFormula,
    target: Target,
    left: &mut PackedWord<6>,
    right: &mut PackedWord<6>,
    product: &mut PackedWord<9>,
) -> u32
    requires tabled { Tabled t.now × WorkingIn t.now f.old × (target.term < f.old.terms) × (f.old.terms + 48 ≤ 560) }
    requires target_spot { spot (basis_in t.now) (term_in t.now f.old target.term).word ≡ found target.place target.number }
    ensures terms_bound { f.new.terms ≤ f.old.terms + 48 }
    ensures working { WorkingIn t.now f.new }
    ensures terms_after { formula_in t.now f.new
        ≡ stepped (field_in t.now) (order_in t.now) (basis_in t.now)
        (formula_in t.now f.old) (term_in t.now f.old target.term) target.place target.number }
    ensures line_taken { LineTaken t.now (term_in t.now f.old target.term) target.place target.number result left.new right.new }
{
    let s = usize::from(f.places[target.term]);
    let word = take_place(f, s);
    let item = cut(t, &word, target.place, target.number, left, right);
    let x = divide(t, f.coefs[s], target.number);
    cancel_term(t, x, left, item, right, f, target.term, product);
    x
}
