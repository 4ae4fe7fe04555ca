// The first pair from a place on: overlaps by first, second, shared, then inclusions by first, second, place, all rising.

ghost use Rattle.std.specs.Prelude.{◌≡◌, false, ◌≤◌, ◌<◌, IfSome};
ghost use Rattle.overlapsearch.specs.Leading.{word_in, words_in};
ghost use Rattle.overlapsearch.specs.Position.{next_at, part_at, pairs_at, row_after, pair_found, seen_in_part, seen_pairs, Placed, FoundAt};

use crate::inside::next_inside;
use crate::leading::LeadingWords;
use crate::shared::next_shared;
use crate::{Cursor, PairAt};

// The first place of a part for the two leading words behind two. Shared letters count from 1, places from 0.
#[tactic(auto, unfolding(crate::specs::Position::row_after, crate::specs::Position::part_of))]
fn next_row(c: Cursor, n: usize) -> Cursor
    requires { (c.second < n) × (c.first < n) }
    ensures { result ≡ row_after c n }
{
    let number = usize::from(!c.inside);
    let second = c.second + 1;
    if second < n {
        return Cursor {
            second: second,
            number: number,
            ..c
        };
    }
    Cursor {
        first: c.first + 1,
        second: 0,
        number: number,
        ..c
    }
}

// The next number that the two words of a place give: how many letters they share or, INSIDE, where the second stands in the first.
fn number_at<const INSIDE: bool>(words: &LeadingWords, c: Cursor) -> Option<usize>
    requires { (c.first < words.now.count) × (c.second < words.now.count) × (c.inside ≡ INSIDE) }
    ensures { result ≡ next_at (word_in words.now c.first) (word_in words.now c.second) c }
{
    let u = words.letters(c.first);
    let v = words.letters(c.second);
    if INSIDE {
        return next_inside(u, v, c.first, c.second, c.number);
    }
    next_shared(u, v, c.number)
}

// The pair of a place's two words, of a and b letters, and a number that they give.
#[tactic(auto, unfolding(crate::specs::Position::pair_found))]
fn pair_found(c: Cursor, a: usize, b: usize, number: usize) -> PairAt
    requires { c.inside ≡ false → number ≤ a }
    ensures { result ≡ pair_found c a b number }
{
    if c.inside {
        return PairAt {
            inside: true,
            first: c.first,
            second: c.second,
            shared: b,
            at: number,
        };
    }
    PairAt {
        inside: false,
        first: c.first,
        second: c.second,
        shared: number,
        at: a - number,
    }
}

// The first pair of a part from a place on: among the overlaps or, INSIDE, among the inclusions. The two parts have a loop each: what a part does
// not need is then not looked at in its loop. Both stand in next_pair: with a call of each the search is slower.
#[inline(always)]
fn next_in_part<const INSIDE: bool>(words: &LeadingWords, from: Cursor) -> Option<PairAt>
    requires { Placed words.now.count from × (from.inside ≡ INSIDE) }
    ensures result_value { seen_in_part (words_in words.now) result ≡ part_at (words_in words.now) from }
    ensures found_at { IfSome result (λ f. FoundAt words.now.lens.now words.now.count f × (f.inside ≡ from.inside)) }
{
    let mut c = Cursor {
        inside: INSIDE,
        ..from
    };
    // No range: the first two words are those of from, and the number begins anew with each two.
    while c.first < words.count {
        let next = number_at::<INSIDE>(words, c);
        if let Some(number) = next {
            let a = words.lens[c.first];
            let b = words.lens[c.second];
            return Some(pair_found(c, a, b, number));
        }
        c = next_row(c, words.count);
    }
    None
}

// The first pair from a place on: behind the last overlap comes the first inclusion.
pub fn next_pair(words: &LeadingWords, from: Cursor) -> Option<PairAt>
    requires { Placed words.now.count from }
    ensures result_value { seen_pairs (words_in words.now) result ≡ pairs_at (words_in words.now) from }
    ensures found_at { IfSome result (λ f. FoundAt words.now.lens.now words.now.count f) }
{
    if from.inside {
        return next_in_part::<true>(words, from);
    }
    let overlap = next_in_part::<false>(words, from);
    if let Some(f) = overlap {
        return Some(f);
    }
    next_in_part::<true>(words, Cursor::TURN)
}
