// Refusal 15: an O line whose item is above the count of overlaps and inclusions.

ghost use Rattle.std.specs.Prelude.{◌≡◌, ◌+◌, ◌≤◌, length};
ghost use Rattle.acceptance.specs.Check.{items_judged};
ghost use Rattle.basis.specs.Answer.{verdict_of};
ghost use Rattle.sumlines.specs.Lines.{sums_at, above_count, Counted};

use crate::sum_line::line_at;
use package::{Refusal, SUM_O, SumAt};

// Whether a line is an O line whose item is above the count.
#[tactic(auto, unfolding(crate::specs::Lines::above_count))]
fn is_above(s: SumAt, count: usize) -> bool
    ensures { result ≡ above_count count s.kind s.item }
{
    s.kind == SUM_O && count < s.item
}

// 15 for the first O line, from the place from on, whose item is above the count. The line there has the number first.
pub fn judge_items(bytes: &[u8], from: usize, first: usize, count: usize) -> Result<(), Refusal>
    requires from_in_bounds { (from ≤ length bytes.now) × (first ≤ from + 4) × (1 ≤ first) × (length bytes.now ≤ 65536) }
    requires counted { Counted first (sums_at bytes.now from first) }
    ensures { verdict_of result ≡ items_judged count (sums_at bytes.now from first) }
{
    let mut at = from;
    let mut line = first;
    let mut next = line_at(bytes, at);
    while let Some(s) = next {
        if is_above(s, count) {
            return Err(Refusal {
                number: 15,
                place: line,
            });
        }
        at = s.next;
        line += 1;
        next = line_at(bytes, at);
    }
    Ok(())
}
