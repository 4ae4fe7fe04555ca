// Refusals 14, 10 and 13: the sums of the overlaps and inclusions, one after the other.

ghost use Rattle.std.specs.Prelude.{◌≡◌, length};
ghost use Rattle.algebra.specs.Ideal.{family};
ghost use Rattle.package.specs.Names.{sum_o};
ghost use Rattle.overlaps.specs.Overlaps.{leads, overlaps};
ghost use Rattle.working.specs.Working.{Arranged};
ghost use Rattle.acceptance.specs.Check.{overlaps_judged};
ghost use Rattle.basis.specs.Answer.{verdict_of};
ghost use Rattle.sumlines.specs.Lines.{sums_at};
ghost use Rattle.sumorder.specs.Reached.{Reached};
ghost use Rattle.table.specs.Polynomials.{basis_in};
ghost use Rattle.table.specs.Table.{field_in, order_in};
ghost use Rattle.table.specs.Tabled.{Tabled};
ghost use Rattle.tablesums.specs.Leading.{LeadsIn};
ghost use Rattle.tablesums.specs.Heading.{head_in};
ghost use Rattle.lapsums.specs.Judged.{LapsBehind};

use crate::PairsPassed;
use crate::beginning::start_lap;
use itemadding::taking::take_item;
use overlapsearch::leading::LeadingWords;
use overlapsearch::walking::{first_pair, pair_behind};
use package::{Refusal, SUM_O};
use packedterms::{PackedWord, WorkingFormula};
use sumlines::sum_line::{item_line, line_at};
use table::Table;
use table::numbers::gens_in;
use tablesums::lines::pack_sides;
use tablesums::under::is_under;

// The sums of all pairs of the basis, whose leading words are those given: the lines stand in the bytes from the place from on, where the line has the
// number first. The pairs are counted on the way; where no line is left over behind the last, each line belonged to one of them. The overlap word of a
// pair is wanted for 14, so where it has a line. The formula is scratch.
pub fn judge_overlaps(
    t: &Table,
    words: &LeadingWords,
    from: usize,
    first: usize,
    f: &mut WorkingFormula,
) -> Result<PairsPassed, Refusal>
    requires tabled { Tabled t.now × LeadsIn t.now words.now }
    requires reached { Reached (head_in t.now) sum_o 1 words.now.bytes.now from first }
    requires arranged { Arranged f.old.places }
    ensures result_value { verdict_of result
        ≡ overlaps_judged (field_in t.now) (order_in t.now) (family (basis_in t.now))
        (sums_at words.now.bytes.now from first) (overlaps (leads (basis_in t.now))) 1 }
    ensures laps_behind { LapsBehind (length (overlaps (leads (basis_in t.now)))) (sums_at words.now.bytes.now from first) result }
{
    let base = gens_in(t);
    let mut left = PackedWord::<6>::EMPTY;
    let mut right = PackedWord::<6>::EMPTY;
    let mut lap = PackedWord {
        blocks: [0; 9],
        size: 0,
    };
    let mut product = PackedWord {
        blocks: [0; 9],
        size: 0,
    };
    let mut at = from;
    let mut line = first;
    let mut next = line_at(words.bytes, from);
    let mut i = 0;
    let mut found = first_pair(words);
    'items: while let Some(pair) = found {
        let item = i + 1;
        let lined = item_line(next, SUM_O, item).is_some();
        start_lap(t, pair, lined, &mut lap, f);
        while let Some(s) = item_line(next, SUM_O, item) {
            pack_sides(t, words.bytes, s, &mut left, &mut right);
            let under = is_under(t, s.of, &left, &right, &lap, &mut product);
            let fails = !under;
            if fails {
                return Err(Refusal {
                    number: 14,
                    place: line,
                });
            }
            let j = base + s.of;
            take_item(t, s.coef, &left, j, 0, &right, f, 0, &mut product);
            let over = 512 < f.terms;
            if over {
                return Err(Refusal {
                    number: 10,
                    place: line,
                });
            }
            at = s.next;
            line += 1;
            next = line_at(words.bytes, at);
        }
        if 0 < f.terms {
            return Err(Refusal {
                number: 13,
                place: item,
            });
        }
        i = item;
        found = pair_behind(words, pair);
    }
    Ok(PairsPassed {
        count: i,
        left: next.is_some(),
    })
}
