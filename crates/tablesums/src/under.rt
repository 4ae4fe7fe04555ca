// The test of refusal 14: whether the greatest word that a line brings is below the overlap word.

ghost use Rattle.std.specs.Prelude.{◌≡◌, ℕ, ◌%◌, ◌/◌, ◌≤◌, take};
ghost use Rattle.words.specs.Order.{by_number_of, by_letters};
ghost use Rattle.packedwords.specs.Codes.{itself};
ghost use Rattle.algebra.specs.Ideal.{family};
ghost use Rattle.table.specs.Polynomials.{basis_in};
ghost use Rattle.table.specs.Table.{order_in, basis_count_in};
ghost use Rattle.table.specs.Tabled.{Tabled};
ghost use Rattle.table.specs.Words.{block_count};
ghost use Rattle.acceptance.specs.Check.{is_under};
ghost use Rattle.packedterms.specs.InFormula.{letters_in, BuiltIn};
ghost use Rattle.tablesums.specs.Lines.{line_in};
ghost use Rattle.tablesums.specs.ShortWords.{ShortIn};

use itemadding::building::build;
use packedterms::PackedWord;
use packing::order::compare;
use std::cmp::Ordering;
use table::Table;
use table::numbers::{first_in, gens_in};

// How the word u stands to v: the weights decide, and then as many blocks as the first word takes.
fn stand(u: &PackedWord<9>, v: &PackedWord<9>) -> Ordering
    requires { u.now.size % 256 ≤ 72 }
    ensures { result ≡ by_number_of (u.now.size / 256) (v.now.size / 256)
        (by_letters itself (take (block_count u.now.size) u.now.blocks) (take (block_count u.now.size) v.now.blocks)) }
{
    let x = u.size / 256;
    let y = v.size / 256;
    match x.cmp(&y) {
        Ordering::Equal => compare(&u.blocks, 0, &v.blocks, 0, (u.size % 256).div_ceil(12)),
        unequal => unequal,
    }
}

// Whether left × leading word × right is below the word lap, where the leading word is that of basis polynomial `of`. The answer does not depend on
// the line's coefficient, and so holds for any. The product is made in `product`.
pub fn is_under(
    t: &Table,
    of: usize,
    left: &PackedWord<6>,
    right: &PackedWord<6>,
    lap: &PackedWord<9>,
    product: &mut PackedWord<9>,
) -> bool
    requires tabled { Tabled t.now × (1 ≤ of) × (of ≤ basis_count_in t.now) × BuiltIn t.now lap.now }
    requires short { ShortIn t.now left.now × ShortIn t.now right.now }
    ensures by_index { (x : ℕ)
        → result ≡ is_under (order_in t.now) (family (basis_in t.now)) (letters_in t.now lap.now)
        (line_in t.now x left.now of right.now) }
{
    let first = first_in(t, gens_in(t) + of);
    build(t, first, left, right, product);
    stand(product, lap).is_lt()
}
