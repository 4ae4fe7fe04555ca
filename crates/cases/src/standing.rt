// Whether a word stands in another at a place, and how many letters were compared, put into a text: two numbers in one line.

ghost use Rattle.std.specs.Prelude.{◌≡◌, ◌+◌, ◌≤◌, length};
ghost use Rattle.std.proofs.lemmas.List.Edits.{sets};
ghost use Rattle.cases.specs.HeadLine.{budget_said};
ghost use Rattle.cases.specs.CaseTexts.{standing_text};

use crate::head;
use printing::put_numbers_line;
use trials::vg_trial_stands_at;

// b at the place of w that the head line says where others say the budget.
pub fn put_standing(text: &mut [u8], at: usize, line: &[u8], b: &[u8], w: &[u8]) -> usize
    requires line_len { length line.now ≡ 81 }
    requires at_in_bounds { at + 64 ≤ length text.old }
    ensures value { (result ≡ at + length (standing_text b.now w.now (budget_said line.now))) × (result ≤ length text.old) }
    ensures text_after { text.new ≡ sets text.old at (standing_text b.now w.now (budget_said line.now)) }
{
    let stood = vg_trial_stands_at(b, w, head::budget(line) as usize);
    let yes = u64::from(stood.stands);
    put_numbers_line(text, at, &[yes, stood.compared as u64])
}
