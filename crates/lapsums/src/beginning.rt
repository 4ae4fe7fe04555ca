// The start of a pair's sum: its overlap word and its difference.

ghost use Rattle.std.specs.Prelude.{◌≡◌, true, ◌≤◌, ◌<◌};
ghost use Rattle.algebra.specs.Ideal.{family};
ghost use Rattle.algebra.specs.Written.{written};
ghost use Rattle.overlaps.specs.Overlaps.{rest_of, difference};
ghost use Rattle.overlapsearch.specs.Position.{pair_of};
ghost use Rattle.table.specs.Polynomials.{basis_in};
ghost use Rattle.table.specs.Table.{field_in, order_in, basis_count_in};
ghost use Rattle.table.specs.Tabled.{Tabled};
ghost use Rattle.working.specs.Working.{Arranged};
ghost use Rattle.packedterms.specs.InFormula.{formula_in, WorkingIn};
ghost use Rattle.tablesums.specs.Factors.{Lapping};
ghost use Rattle.tablesums.specs.ShortWords.{HoldsShort};
ghost use Rattle.lapsums.specs.LapWord.{LapWord};

use overlapsearch::PairAt;
use packedterms::{PackedWord, WorkingFormula};
use table::Table;
use tablesums::factors::{cut_factors, overlap_word};
use tablesums::starting::start_difference;

// The overlap word of a pair is built in lap where it is wanted, and else lap stays: rest is what of the pair's second leading word stands behind the
// first.
fn word_wanted(t: &Table, pair: PairAt, wanted: bool, rest: &PackedWord<6>, lap: &mut PackedWord<9>)
    requires { Tabled t.now × (pair.first < basis_count_in t.now) × HoldsShort t.now (rest_of (family (basis_in t.now)) (pair_of pair)) rest.now }
    ensures lap_word { wanted ≡ true → LapWord t.now (pair_of pair) lap.new }
{
    if wanted {
        overlap_word(t, pair, rest, lap);
    }
}

// The overlap word of a pair is built in lap where it is wanted, and else lap stays; the pair's difference becomes the working formula.
pub fn start_lap(
    t: &Table,
    pair: PairAt,
    wanted: bool,
    lap: &mut PackedWord<9>,
    f: &mut WorkingFormula,
)
    requires tabled { Tabled t.now × Lapping t.now pair }
    requires arranged { Arranged f.old.places }
    ensures upper_bound { f.new.terms ≤ 96 }
    ensures lap_word { wanted ≡ true → LapWord t.now (pair_of pair) lap.new }
    ensures working { WorkingIn t.now f.new }
    ensures difference { formula_in t.now f.new
        ≡ written (field_in t.now) (order_in t.now)
        (difference (field_in t.now) (family (basis_in t.now)) (pair_of pair)) }
{
    let mut front = PackedWord::<6>::EMPTY;
    let mut back = PackedWord::<6>::EMPTY;
    let mut rest = PackedWord::<6>::EMPTY;
    let mut product = PackedWord {
        blocks: [0; 9],
        size: 0,
    };
    cut_factors(t, pair, &mut front, &mut back, &mut rest);
    word_wanted(t, pair, wanted, &rest, lap);
    start_difference(t, pair, &front, &back, &rest, f, &mut product);
}
