// Refusal 15, and then the sums of the overlaps and inclusions.

ghost use Rattle.std.specs.Prelude.{◌≡◌, [], length};
ghost use Rattle.package.specs.Names.{sum_o};
ghost use Rattle.overlaps.specs.Overlaps.{leads, overlaps};
ghost use Rattle.working.specs.Working.{Arranged};
ghost use Rattle.acceptance.specs.Check.{items_judged};
ghost use Rattle.sumlines.specs.Lines.{sums_at};
ghost use Rattle.basis.specs.Answer.{verdict_of};
ghost use Rattle.sumorder.specs.Reached.{Reached};
ghost use Rattle.sumorder.specs.Row.{row_verdict};
ghost use Rattle.table.specs.Polynomials.{basis_in};
ghost use Rattle.table.specs.Table.{field_in, order_in};
ghost use Rattle.table.specs.Tabled.{Tabled};
ghost use Rattle.tablesums.specs.Leading.{LeadsIn};
ghost use Rattle.tablesums.specs.Heading.{head_in};
ghost use Rattle.lapsums.specs.Answer.{answer_of};

use crate::overlap_sums::judge_overlaps;
use overlapsearch::leading::LeadingWords;
use overlapsearch::walking::count_pairs;
use package::Refusal;
use packedterms::WorkingFormula;
use sumlines::item_lines::judge_items;
use table::Table;

// 15, then the sums of the pairs: the lines of kind O stand from the place at on, where the line has the number `line`. 15, for the first of them whose
// item is above the count of pairs, comes first, and is looked for only where the sums are refused or a line is left over: else each line belonged to a
// pair. The formula is scratch.
pub fn judge_laps(
    t: &Table,
    words: &LeadingWords,
    at: usize,
    line: usize,
    f: &mut WorkingFormula,
) -> Result<usize, Refusal>
    requires tabled { Tabled t.now × LeadsIn t.now words.now }
    requires reached { Reached (head_in t.now) sum_o 1 words.now.bytes.now at line }
    requires arranged { Arranged f.old.places }
    ensures value { result
        ≡ answer_of
        (row_verdict (field_in t.now) (order_in t.now) [] (basis_in t.now) (sums_at words.now.bytes.now at line))
        (length (overlaps (leads (basis_in t.now)))) }
{
    match judge_overlaps(t, words, at, line, f) {
        Err(refusal) => {
            judge_items(words.bytes, at, line, count_pairs(words))?;
            Err(refusal)
        }
        Ok(laps) => {
            let left = laps.left;
            if left {
                judge_items(words.bytes, at, line, laps.count)?;
            }
            Ok(laps.count)
        }
    }
}
