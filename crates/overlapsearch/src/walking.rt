// The pairs one after the other, and how many there are.

ghost use Rattle.std.specs.Prelude.{◌≡◌, ◌≤◌, length, IfSome};
ghost use Rattle.overlaps.specs.Overlaps.{overlaps};
ghost use Rattle.overlapsearch.specs.Leading.{words_in};
ghost use Rattle.overlapsearch.specs.Position.{number_of, pairs_at, behind, seen_pairs, FoundAt};

use crate::finding::next_pair;
use crate::leading::LeadingWords;
use crate::{Cursor, PairAt};

// The first pair of all.
pub fn first_pair(words: &LeadingWords) -> Option<PairAt>
    ensures result_value { seen_pairs (words_in words.now) result ≡ overlaps (words_in words.now) }
    ensures found_at { IfSome result (λ f. FoundAt words.now.lens.now words.now.count f) }
{
    next_pair(words, Cursor::ORIGIN)
}

// The number of a pair's place.
#[tactic(auto, unfolding(crate::specs::Position::number_of))]
fn number_of(f: PairAt) -> usize
    ensures { result ≡ number_of f }
{
    if f.inside {
        return f.at;
    }
    f.shared
}

// The place behind a pair.
pub fn place_behind(f: PairAt) -> Cursor
    requires { number_of f ≤ 24 }
    ensures { result ≡ behind f }
{
    let next = number_of(f) + 1;
    Cursor {
        inside: f.inside,
        first: f.first,
        second: f.second,
        number: next,
    }
}

// The pair behind one.
pub fn pair_behind(words: &LeadingWords, f: PairAt) -> Option<PairAt>
    requires { FoundAt words.now.lens.now words.now.count f }
    ensures result_value { seen_pairs (words_in words.now) result ≡ pairs_at (words_in words.now) (behind f) }
    ensures found_at { IfSome result (λ g. FoundAt words.now.lens.now words.now.count g) }
{
    next_pair(words, place_behind(f))
}

// How many pairs there are.
pub fn count_pairs(words: &LeadingWords) -> usize
    ensures { result ≡ length (overlaps (words_in words.now)) }
{
    let mut count = 0;
    let mut next = first_pair(words);
    while let Some(f) = next {
        count += 1;
        next = pair_behind(words, f);
    }
    count
}
