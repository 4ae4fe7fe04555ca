// The last word of a line: a newline ends it, so the line is read without a search for its end first.

ghost use Rattle.std.specs.Prelude.{◌≡◌, ℕ, ◌+◌, ◌≤◌, length, drop};
ghost use Rattle.text.specs.Answers.{next_word, span_word};
ghost use Rattle.text.specs.Field.{word_then};
ghost use Rattle.text.specs.Pieces.{lines};
ghost use Rattle.package.specs.Held.{seen_line_word};

use text::WordAt;
use wordreading::word::word_until;

// The word from the place at on, which a newline ends, and the place behind the newline.
#[tactic(auto, unfolding(package::specs::Held::seen_line_word))]
pub fn line_word(s: &[u8], at: usize) -> Option<WordAt>
    requires { at ≤ length s.now }
    ensures result_value { seen_line_word s.now at result ≡ word_then (lines (drop at s.now)) }
    ensures result_in_bounds { next_word result ≤ length s.now }
    ensures result_in_bounds_2 { at + span_word result ≤ length s.now }
{
    word_until::<b'\n'>(s, at)
}
