// The difference of a pair, with which its sum starts.

ghost use Rattle.std.specs.Prelude.{◌≡◌, ◌≤◌, ◌<◌};
ghost use Rattle.algebra.specs.Ideal.{family};
ghost use Rattle.algebra.specs.Written.{written};
ghost use Rattle.overlaps.specs.Overlaps.{rest_of, front_of, back_of, difference};
ghost use Rattle.overlapsearch.specs.Position.{pair_of};
ghost use Rattle.table.specs.Polynomials.{basis_in};
ghost use Rattle.table.specs.Table.{field_in, order_in, basis_count_in};
ghost use Rattle.table.specs.Tabled.{Tabled};
ghost use Rattle.working.specs.Working.{Arranged};
ghost use Rattle.packedterms.specs.InFormula.{formula_in, WorkingIn};
ghost use Rattle.tablesums.specs.ShortWords.{HoldsShort};

use itemadding::placing::place_item;
use itemadding::taking::take_item;
use overlapsearch::PairAt;
use packedterms::{PackedWord, WorkingFormula};
use table::Table;
use table::numbers::{gens_in, inverse_in};

// Whatever the formula was, it then is the difference of a pair, whose factors are front, back and rest: each side is divided by its own leading
// coefficient. Each product is made in `product`.
pub fn start_difference(
    t: &Table,
    pair: PairAt,
    front: &PackedWord<6>,
    back: &PackedWord<6>,
    rest: &PackedWord<6>,
    f: &mut WorkingFormula,
    product: &mut PackedWord<9>,
)
    requires tabled { Tabled t.now × (pair.first < basis_count_in t.now) × (pair.second < basis_count_in t.now) }
    requires short_word { HoldsShort t.now (front_of (family (basis_in t.now)) (pair_of pair)) front.now }
    requires short_word_2 { HoldsShort t.now (back_of (family (basis_in t.now)) (pair_of pair)) back.now }
    requires short_word_3 { HoldsShort t.now (rest_of (family (basis_in t.now)) (pair_of pair)) rest.now }
    requires arranged { Arranged f.old.places }
    ensures upper_bound { f.new.terms ≤ 96 }
    ensures working { WorkingIn t.now f.new }
    ensures difference { formula_in t.now f.new
        ≡ written (field_in t.now) (order_in t.now)
        (difference (field_in t.now) (family (basis_in t.now)) (pair_of pair)) }
{
    let base = gens_in(t) + 1;
    let x = inverse_in(t, pair.first);
    let y = inverse_in(t, pair.second);
    place_item(
        t,
        x,
        &PackedWord::<6>::EMPTY,
        base + pair.first,
        rest,
        f,
        product,
    );
    take_item(t, y, front, base + pair.second, 0, back, f, 0, product);
}
