// The numbers that a word is packed into, put into a text: whether it is one of at most 72 letters, and six numbers, in one line.

ghost use Rattle.std.specs.Prelude.{◌≡◌, ◌+◌, ◌≤◌, length};
ghost use Rattle.std.proofs.lemmas.List.Edits.{sets};
ghost use Rattle.cases.specs.CaseTexts.{packed_text};

use printing::put_numbers_line;
use trials::vg_trial_pack;

// The numbers that w is packed into.
pub fn put_packed(text: &mut [u8], at: usize, w: &[u8]) -> usize
    requires { at + 148 ≤ length text.old }
    ensures value { (result ≡ at + length (packed_text w.now)) × (result ≤ length text.old) }
    ensures text_after { text.new ≡ sets text.old at (packed_text w.now) }
{
    let p = vg_trial_pack(w);
    let b = p.blocks;
    let yes = u64::from(p.fits);
    put_numbers_line(text, at, &[yes, b[0], b[1], b[2], b[3], b[4], b[5]])
}
