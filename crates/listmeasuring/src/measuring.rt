// The pairs counted, and the bytes of their list.

ghost use Rattle.std.specs.Prelude.{◌≡◌, ◌+◌, ◌-◌, ◌≤◌, ◌<◌, max, length, get_or};
ghost use Rattle.overlaps.specs.Overlaps.{overlaps};
ghost use Rattle.overlaps.specs.Listing.{line_length, overlap_text};
ghost use Rattle.overlapsearch.specs.Leading.{words_in};
ghost use Rattle.overlapsearch.specs.Position.{pair_of, FoundAt};
ghost use Rattle.overlapsearch.specs.Kept.{KeptPairs};

use crate::Measure;
use overlapsearch::PairAt;
use overlapsearch::keeping::keep_pair;
use overlapsearch::leading::LeadingWords;
use overlapsearch::walking::{first_pair, pair_behind};
use textwriting::write::number_len;

// How many bytes the line of a pair has, number k of the list, with an overlap word written with so many: no number in it has over five digits.
#[tactic(auto, using(crate::proofs::DigitCount::five_digits))]
fn line_len(k: usize, f: PairAt, word: usize) -> usize
    requires { (k < 100000) × (f.first < 64) × (f.second < 64) × (f.shared ≤ 24) × (f.at ≤ 24) × (word ≤ 48) }
    ensures { (result ≡ line_length k (pair_of f) word) × (result ≤ 128) }
{
    let item = number_len(k as u64);
    let first = number_len(f.first as u64 + 1);
    let second = number_len(f.second as u64 + 1);
    let shared = number_len(f.shared as u64);
    let at = number_len(f.at as u64);
    item + first + second + shared + at + word + 6
}

// How many bytes the overlap word is written with: an empty one has one.
fn word_len(words: &LeadingWords, f: PairAt) -> usize
    requires { FoundAt words.now.lens.now words.now.count f }
    ensures { (result ≡ max 1 (get_or words.now.lens.now f.first 0 + (get_or words.now.lens.now f.second 0 - f.shared))) × (result ≤ 48) }
{
    let rest = words.lens[f.second] - f.shared;
    (words.lens[f.first] + rest).max(1)
}

// The number of pairs, and of the bytes of their list. The first pairs are kept, as many as there is room for.
pub fn measure(words: &LeadingWords, kept: &mut [u32]) -> Measure
    ensures count_value { result.count ≡ length (overlaps (words_in words.now)) }
    ensures bytes_value { result.bytes ≡ length (overlap_text (words_in words.now)) }
    ensures count_bound { (result.count ≤ 98304) × (result.bytes ≤ 16000000) }
    ensures kept_pairs { KeptPairs words.now.lens.now words.now.count (words_in words.now) kept.new result.count }
{
    let mut count = 0;
    let mut total = 33;
    let mut next = first_pair(words);
    while let Some(f) = next {
        keep_pair(kept, count, f);
        count += 1;
        total += line_len(count, f, word_len(words, f));
        next = pair_behind(words, f);
    }
    Measure {
        count: count,
        bytes: total,
    }
}
