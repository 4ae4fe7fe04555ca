// Words: `-`, the empty word, or one or more letters `a` to `z`.
// `inner_word` wants another field behind its own, `last_word` wants none.

ghost use Rattle.std.specs.Prelude.{◌≡◌, ℕ, ◌+◌, ◌≤◌, ◌<◌, length, get_or, drop};
ghost use Rattle.text.specs.Pieces.{fields, pieces};
ghost use Rattle.text.specs.Word.{is_dash, word_of};
ghost use Rattle.text.specs.Field.{word_then, word_last};
ghost use Rattle.text.specs.Answers.{seen_word, len_word, seen_word_at, seen_word_until, next_word, span_word};

use fieldreading::ending::ends_at;
use text::WordAt;
use text::bytes::{all_within, is_within};

// The empty word as it is written.
const DASH: &[u8] = b"-";

// Whether a field is `-`.
#[tactic(auto, unfolding(text::specs::Word::is_dash))]
fn is_dash(f: &[u8]) -> bool
    ensures { result ≡ is_dash f.now }
{
    f == DASH
}

// The word that a field says.
pub fn read_word(f: &[u8]) -> Option<usize>
    ensures result_value { seen_word f.now result ≡ word_of f.now }
    ensures result_in_bounds { len_word result ≤ length f.now }
{
    if f.len() == 0 {
        return None;
    }
    if is_dash(f) {
        return Some(0);
    }
    if all_within(97, 122, f) {
        return Some(f.len());
    }
    None
}

// The letters from the place at on, which the byte END ends: the first byte is not `-`.
fn letters_until<const END: u8>(s: &[u8], at: usize) -> Option<WordAt>
    requires low { END < 45 }
    requires at_in_bounds { at < length s.now }
    requires fact { get_or s.now at 0 ≡ 45 → ⊥ }
    ensures result_value { seen_word_until END s.now at result ≡ word_then (pieces END (drop at s.now)) }
    ensures result_in_bounds { next_word result ≤ length s.now }
    ensures result_in_bounds_2 { at + span_word result ≤ length s.now }
{
    for i in at..s.len() {
        let b = s[i];
        if !is_within(97, 122, u32::from(b)) {
            if b != END || i == at {
                return None;
            }
            return Some(WordAt {
                len: i - at,
                next: i + 1,
            });
        }
    }
    None
}

// The word from the place at on, which the byte END ends, and the place behind that byte.
pub fn word_until<const END: u8>(s: &[u8], at: usize) -> Option<WordAt>
    requires positive { 0 < END }
    requires low { END < 45 }
    requires at_in_bounds { at ≤ length s.now }
    ensures result_value { seen_word_until END s.now at result ≡ word_then (pieces END (drop at s.now)) }
    ensures result_in_bounds { next_word result ≤ length s.now }
    ensures result_in_bounds_2 { at + span_word result ≤ length s.now }
{
    if s.len() <= at {
        return None;
    }
    if s[at] != b'-' {
        return letters_until::<END>(s, at);
    }
    if ends_at(s, at + 1, END) {
        return Some(WordAt {
            len: 0,
            next: at + 2,
        });
    }
    None
}

// The word in the field that starts at the place at, another field behind it.
#[tactic(auto, unfolding(text::specs::Answers::seen_word_at))]
pub fn inner_word(l: &[u8], at: usize) -> Option<WordAt>
    requires { at ≤ length l.now }
    ensures result_value { seen_word_at l.now at result ≡ word_then (fields (drop at l.now)) }
    ensures result_in_bounds { next_word result ≤ length l.now }
    ensures result_in_bounds_2 { at + span_word result ≤ length l.now }
{
    word_until::<b' '>(l, at)
}

// The word in the last field, which starts at the place at: bytes with a space among them say no word.
pub fn last_word(l: &[u8], at: usize) -> Option<usize>
    requires { at ≤ length l.now }
    ensures result_value { seen_word (drop at l.now) result ≡ word_last (fields (drop at l.now)) }
    ensures result_in_bounds { at + len_word result ≤ length l.now }
{
    read_word(&l[at..])
}
