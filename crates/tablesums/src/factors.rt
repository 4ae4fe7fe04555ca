// The factors of a pair: what of its first leading word stands left and right of the second, and what of the second stands behind the first; and the
// overlap word.

ghost use Rattle.std.specs.Prelude.{◌≡◌, [], suc, ◌-◌, ◌*◌, ◌%◌, ◌≤◌, ◌<◌, length};
ghost use Rattle.algebra.specs.Ideal.{family};
ghost use Rattle.overlaps.specs.Overlaps.{overlap_word, rest_of, front_of, back_of};
ghost use Rattle.overlapsearch.specs.Position.{pair_of};
ghost use Rattle.table.specs.Polynomials.{basis_in};
ghost use Rattle.table.specs.Table.{basis_count_in};
ghost use Rattle.table.specs.Tabled.{Tabled};
ghost use Rattle.packedterms.specs.InFormula.{letters_in, BuiltIn};
ghost use Rattle.tablesums.specs.Factors.{LeadPacked, Lapping};
ghost use Rattle.tablesums.specs.Leading.{lead_in};
ghost use Rattle.tablesums.specs.ShortWords.{HoldsShort};

use itemadding::building::build;
use overlapsearch::PairAt;
use packedterms::PackedWord;
use packing::part::{left_part, right_part};
use table::Table;
use table::numbers::{first_in, gens_in, size_in, word_at};

// The leading word of basis polynomial g, counted from 0, of whose six blocks four are zeros.
fn lead_word(t: &Table, g: usize, word: &mut PackedWord<6>)
    requires { Tabled t.now × (g < basis_count_in t.now) }
    ensures { LeadPacked t.now (suc g) (word.new.size % 256) word.new.blocks }
{
    let i = first_in(t, gens_in(t) + 1 + g);
    let at = word_at(i);
    word.blocks = [t[at], t[at + 1], 0, 0, 0, 0];
    word.size = size_in(t, i);
}

// Cuts the second leading word of a pair behind the shared letters. The answer is how many letters that word has. Each letter weighs 1, so that the size of
// a word is 257 × letters.
fn cut_second(t: &Table, f: PairAt, rest: &mut PackedWord<6>) -> usize
    requires { Tabled t.now × Lapping t.now f }
    ensures value { (result ≡ length (lead_in t.now (suc f.second))) × (result ≤ 24) }
    ensures short_word { HoldsShort t.now (rest_of (family (basis_in t.now)) (pair_of f)) rest.new }
{
    let mut word = PackedWord::<6>::EMPTY;
    lead_word(t, f.second, &mut word);
    let n = word.size % 256;
    right_part(&mut rest.blocks, &word.blocks, n, f.shared);
    rest.size = 257 * (n - f.shared);
    n
}

// Cuts the first leading word of a pair left and right of the second, which has n letters. Before, back is the empty word: of an overlap nothing is
// right of the second, and nothing is cut.
fn cut_first(t: &Table, f: PairAt, n: usize, front: &mut PackedWord<6>, back: &mut PackedWord<6>)
    requires tabled { Tabled t.now × Lapping t.now f × (n ≡ length (lead_in t.now (suc f.second))) × (n ≤ 24) }
    requires empty { HoldsShort t.now [] back.old }
    ensures short_word { HoldsShort t.now (front_of (family (basis_in t.now)) (pair_of f)) front.new }
    ensures short_word_2 { HoldsShort t.now (back_of (family (basis_in t.now)) (pair_of f)) back.new }
{
    let mut word = PackedWord::<6>::EMPTY;
    lead_word(t, f.first, &mut word);
    let m = word.size % 256;
    left_part(&mut front.blocks, &word.blocks, m, f.at);
    front.size = 257 * f.at;
    let end = f.at + n;
    if end < m {
        right_part(&mut back.blocks, &word.blocks, m, end);
        back.size = 257 * (m - end);
    }
}

// Cuts the three factors of a pair from its leading words. Before, back is the empty word.
pub fn cut_factors(
    t: &Table,
    f: PairAt,
    front: &mut PackedWord<6>,
    back: &mut PackedWord<6>,
    rest: &mut PackedWord<6>,
)
    requires { Tabled t.now × Lapping t.now f × HoldsShort t.now [] back.old }
    ensures short_word { HoldsShort t.now (front_of (family (basis_in t.now)) (pair_of f)) front.new }
    ensures short_word_2 { HoldsShort t.now (back_of (family (basis_in t.now)) (pair_of f)) back.new }
    ensures short_word_3 { HoldsShort t.now (rest_of (family (basis_in t.now)) (pair_of f)) rest.new }
{
    let n = cut_second(t, f, rest);
    cut_first(t, f, n, front, back);
}

// Makes the overlap word in lap: the first leading word, and behind it the rest of the second.
pub fn overlap_word(t: &Table, f: PairAt, rest: &PackedWord<6>, lap: &mut PackedWord<9>)
    requires { Tabled t.now × (f.first < basis_count_in t.now) × HoldsShort t.now (rest_of (family (basis_in t.now)) (pair_of f)) rest.now }
    ensures built { BuiltIn t.now lap.new }
    ensures lap_after { letters_in t.now lap.new ≡ overlap_word (family (basis_in t.now)) (pair_of f) }
{
    let first = first_in(t, gens_in(t) + 1 + f.first);
    build(t, first, &PackedWord::<6>::EMPTY, rest, lap);
}
