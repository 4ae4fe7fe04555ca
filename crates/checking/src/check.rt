// The check's row: the kinds of sums in document 01's order, B items with 10 and 11 and G items with 10 and 12; then 15; then O items with 14, 10
// and 13.

ghost use Rattle.std.specs.Prelude.{◌≡◌, length};
ghost use Rattle.overlaps.specs.Overlaps.{leads, overlaps};
ghost use Rattle.acceptance.specs.Check.{sums_verdict};
ghost use Rattle.sumlines.specs.Lines.{sums_at};
ghost use Rattle.sumorder.specs.Reached.{SumsStart};
ghost use Rattle.table.specs.Table.{field_in, order_in};
ghost use Rattle.table.specs.Polynomials.{relations_in, basis_in};
ghost use Rattle.table.specs.Tabled.{Tabled};
ghost use Rattle.tablesums.specs.Leading.{LeadsIn};
ghost use Rattle.tablesums.specs.Heading.{head_in};
ghost use Rattle.lapsums.specs.Answer.{answer_of};

use kindsums::Behind;
use kindsums::judging::judge_sums;
use lapsums::laps::judge_laps;
use overlapsearch::leading::LeadingWords;
use package::{Refusal, SUM_B, SUM_G};
use packedterms::WorkingFormula;
use table::Table;
use working::formula::start;

// The check of the package that t holds: its sum lines stand in the bytes from the place from on, where the line has the number first, and there lie the
// leading words of its basis. The formula is scratch.
pub fn check(
    t: &Table,
    words: &LeadingWords,
    from: usize,
    first: usize,
    f: &mut WorkingFormula,
) -> Result<usize, Refusal>
    requires tabled { Tabled t.now × LeadsIn t.now words.now }
    requires sums_start { SumsStart (head_in t.now) words.now.bytes.now from first }
    ensures value { result
        ≡ answer_of
        (sums_verdict (field_in t.now) (order_in t.now) (relations_in t.now) (basis_in t.now)
        (sums_at words.now.bytes.now from first))
        (length (overlaps (leads (basis_in t.now)))) }
{
    start(&mut f.places);
    let mut behind = Behind {
        at: from,
        line: first,
    };
    // A refusal is returned by name, and not by `?`, so that an edit can return something else in its place (must-fail/wrong-sums-accepted.edit).
    for kind in [SUM_B, SUM_G] {
        behind = match judge_sums(t, kind, words.bytes, behind.at, behind.line, f) {
            Ok(behind) => behind,
            Err(refusal) => return Err(refusal),
        };
    }
    judge_laps(t, words, behind.at, behind.line, f)
}
