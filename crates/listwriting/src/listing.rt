// The list of pairs written to a slice.

ghost use Rattle.std.specs.Prelude.{◌≡◌, [], ◌++◌, ◌+◌, ◌≤◌, ◌<◌, Some, length, drop};
ghost use Rattle.std.proofs.lemmas.List.Edits.{sets};
ghost use Rattle.text.specs.Word.{write_word};
ghost use Rattle.overlaps.specs.Overlaps.{overlaps, overlap_joined};
ghost use Rattle.overlaps.specs.Listing.{spaced, list_line, all_lines, overlap_text};
ghost use Rattle.overlapsearch.specs.Leading.{word_in, words_in};
ghost use Rattle.overlapsearch.specs.Position.{pair_of, pairs_at, seen_pairs, Placed, FoundAt};
ghost use Rattle.overlapsearch.specs.Kept.{KeptPairs};

use overlapsearch::finding::next_pair;
use overlapsearch::keeping::unpack_pair;
use overlapsearch::leading::LeadingWords;
use overlapsearch::walking::place_behind;
use overlapsearch::{Cursor, PairAt};
use textwriting::write::{put_bytes, put_word};

// A number and a space behind it, written to out from the place at on. The answer is the place behind them.
fn put_spaced(out: &mut [u8], at: usize, n: usize) -> usize
    requires { at + length (spaced n []) ≤ length out.old }
    ensures value { result ≡ at + length (spaced n []) }
    ensures out_after { out.new ≡ sets out.old at (spaced n []) }
{
    let e = textwriting::write::put_number(out, at, n as u64);
    out[e] = b' ';
    e + 1
}

// Five numbers, each with a space behind it.
#[tactic(auto, using(crate::proofs::LineStores::five_length))]
fn put_numbers(
    out: &mut [u8],
    place: usize,
    item: usize,
    first: usize,
    second: usize,
    shared: usize,
    at: usize,
) -> usize
    requires { place + length (spaced item (spaced first (spaced second (spaced shared (spaced at []))))) ≤ length out.old }
    ensures value { result ≡ place + length (spaced item (spaced first (spaced second (spaced shared (spaced at []))))) }
    ensures out_after { out.new ≡ sets out.old place (spaced item (spaced first (spaced second (spaced shared (spaced at []))))) }
{
    let a = put_spaced(out, place, item);
    let b = put_spaced(out, a, first);
    let c = put_spaced(out, b, second);
    let d = put_spaced(out, c, shared);
    put_spaced(out, d, at)
}

// The word that is u followed by rest; `-` where it is empty.
fn put_joined(out: &mut [u8], place: usize, u: &[u8], rest: &[u8]) -> usize
    requires { place + length (write_word (u.now ++ rest.now)) ≤ length out.old }
    ensures value { result ≡ place + length (write_word (u.now ++ rest.now)) }
    ensures out_after { out.new ≡ sets out.old place (write_word (u.now ++ rest.now)) }
{
    if u.is_empty() {
        return put_word(out, place, rest);
    }
    let e = put_bytes(out, place, u);
    put_bytes(out, e, rest)
}

// A pair's line, number k of the list, for the words u and v.
fn put_line(out: &mut [u8], place: usize, k: usize, f: PairAt, u: &[u8], v: &[u8]) -> usize
    requires first_bound { (f.first < 64) × (f.second < 64) × (f.shared ≤ length v.now) }
    requires shared_in_bounds { place + length (list_line k (pair_of f) (overlap_joined u.now v.now f.shared)) ≤ length out.old }
    ensures value { result ≡ place + length (list_line k (pair_of f) (overlap_joined u.now v.now f.shared)) }
    ensures out_after { out.new ≡ sets out.old place (list_line k (pair_of f) (overlap_joined u.now v.now f.shared)) }
{
    let shared = f.shared;
    let d = put_numbers(out, place, k, f.first + 1, f.second + 1, shared, f.at);
    let e = put_joined(out, d, u, &v[shared..]);
    out[e] = 10;
    e + 1
}

// The line of a pair of the leading words, number k of the list.
fn put_pair(words: &LeadingWords, f: PairAt, k: usize, out: &mut [u8], place: usize) -> usize
    requires found_at { FoundAt words.now.lens.now words.now.count f }
    requires in_bounds { place
        + length (list_line k (pair_of f)
        (overlap_joined (word_in words.now f.first) (word_in words.now f.second) f.shared))
        ≤ length out.old }
    ensures value { result
        ≡ place
        + length (list_line k (pair_of f)
        (overlap_joined (word_in words.now f.first) (word_in words.now f.second) f.shared)) }
    ensures out_after { out.new
        ≡ sets out.old place
        (list_line k (pair_of f)
        (overlap_joined (word_in words.now f.first) (word_in words.now f.second) f.shared)) }
{
    let u = words.letters(f.first);
    let v = words.letters(f.second);
    put_line(out, place, k, f, u, v)
}

// Pair k of the list, counted from 0: one that was kept, or the first from the place `from` on, behind the one before.
fn pair_at(words: &LeadingWords, kept: &[u32], k: usize, from: Cursor) -> PairAt
    requires placed { Placed words.now.count from }
    requires kept_pairs { KeptPairs words.now.lens.now words.now.count (words_in words.now) kept.now (length (overlaps (words_in words.now))) }
    requires left { (k < length (overlaps (words_in words.now))) × (pairs_at (words_in words.now) from ≡ drop k (overlaps (words_in words.now))) }
    ensures result_value { seen_pairs (words_in words.now) (Some result) ≡ pairs_at (words_in words.now) from }
    ensures found_at { FoundAt words.now.lens.now words.now.count result }
{
    if k < kept.len() {
        return unpack_pair(kept[k]);
    }
    next_pair(words, from).unwrap()
}

// The count lines of the list, written to out from the place at on; kept holds the first of its pairs. The answer is the place behind them.
fn write_lines(words: &LeadingWords, kept: &[u32], count: usize, out: &mut [u8], at: usize) -> usize
    requires counted { count ≡ length (overlaps (words_in words.now)) }
    requires kept_pairs { KeptPairs words.now.lens.now words.now.count (words_in words.now) kept.now count }
    requires in_bounds { at + length (all_lines (words_in words.now)) ≤ length out.old }
    ensures value { result ≡ at + length (all_lines (words_in words.now)) }
    ensures out_after { out.new ≡ sets out.old at (all_lines (words_in words.now)) }
{
    let mut place = at;
    let mut from = Cursor::ORIGIN;
    for k in 0..count {
        let f = pair_at(words, kept, k, from);
        place = put_pair(words, f, k + 1, out, place);
        from = place_behind(f);
    }
    place
}

// The list, which has count pairs, the first of which are kept, written to out from its beginning on. The answer is how many bytes it has.
pub fn write_list(words: &LeadingWords, kept: &[u32], count: usize, out: &mut [u8]) -> usize
    requires counted { count ≡ length (overlaps (words_in words.now)) }
    requires kept_pairs { KeptPairs words.now.lens.now words.now.count (words_in words.now) kept.now count }
    requires in_bounds { length (overlap_text (words_in words.now)) ≤ length out.old }
    ensures value { result ≡ length (overlap_text (words_in words.now)) }
    ensures out_after { out.new ≡ sets out.old 0 (overlap_text (words_in words.now)) }
{
    let e = put_bytes(out, 0, b"item first second shared at word\n");
    write_lines(words, kept, count, out, e)
}
