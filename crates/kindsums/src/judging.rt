// Refusals 10, 11 and 12: the sums of one kind.

ghost use Rattle.std.specs.Prelude.{◌≡◌, length};
ghost use Rattle.algebra.specs.Ideal.{family};
ghost use Rattle.table.specs.Table.{field_in, order_in};
ghost use Rattle.table.specs.Tabled.{Tabled};
ghost use Rattle.working.specs.Working.{Arranged};
ghost use Rattle.acceptance.specs.Check.{sums_judged};
ghost use Rattle.basis.specs.Answer.{verdict_of};
ghost use Rattle.sumlines.specs.Lines.{sums_at};
ghost use Rattle.sumorder.specs.Reached.{Reached};
ghost use Rattle.tablesums.specs.Heading.{head_in};
ghost use Rattle.kindsums.specs.Kinds.{side_in};
ghost use Rattle.kindsums.specs.Judged.{LeftBehind};

use crate::Behind;
use crate::numbers::kind_numbers;
use itemadding::placing::place_item;
use itemadding::taking::take_item;
use package::Refusal;
use packedterms::{PackedWord, WorkingFormula};
use sumlines::sum_line::{item_line, line_at};
use table::Table;
use tablesums::lines::pack_sides;

// The sums of a kind, item after item and line after line: their lines stand from the place from on, where the line has the number first.
// The formula is scratch.
pub fn judge_sums(
    t: &Table,
    kind: u32,
    bytes: &[u8],
    from: usize,
    first: usize,
    f: &mut WorkingFormula,
) -> Result<Behind, Refusal>
    requires tabled { Tabled t.now }
    requires reached { Reached (head_in t.now) kind 1 bytes.now from first }
    requires arranged { Arranged f.old.places }
    ensures result_value { verdict_of result
        ≡ sums_judged (side_in t.now kind).number kind (field_in t.now) (order_in t.now)
        (family (side_in t.now kind).others) (sums_at bytes.now from first) (side_in t.now kind).targets 1 }
    ensures left_behind { LeftBehind (head_in t.now) kind (length (side_in t.now kind).targets) bytes.now
        (sums_at bytes.now from first) result }
    ensures arranged_2 { Arranged f.new.places }
{
    let k = kind_numbers(t, kind);
    let mut left = PackedWord::<6>::EMPTY;
    let mut right = PackedWord::<6>::EMPTY;
    let mut product = PackedWord {
        blocks: [0; 9],
        size: 0,
    };
    let mut at = from;
    let mut line = first;
    let mut next = line_at(bytes, from);
    'items: for g in 0..k.count {
        let item = g + 1;
        let target = k.targets + item;
        let none = &PackedWord::<6>::EMPTY;
        place_item(t, 1, none, target, none, f, &mut product);
        while let Some(s) = item_line(next, kind, item) {
            pack_sides(t, bytes, s, &mut left, &mut right);
            let j = k.others + s.of;
            take_item(t, s.coef, &left, j, 0, &right, f, 0, &mut product);
            let over = 512 < f.terms;
            if over {
                return Err(Refusal {
                    number: 10,
                    place: line,
                });
            }
            at = s.next;
            line += 1;
            next = line_at(bytes, at);
        }
        if 0 < f.terms {
            return Err(Refusal {
                number: k.number,
                place: item,
            });
        }
    }
    Ok(Behind { at: at, line: line })
}
