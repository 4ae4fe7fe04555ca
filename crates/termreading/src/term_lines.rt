// Block 2: term lines, with refusals 2, 5, 6 and 7 in each; the terms are stored in lent slices, words as places in the package's bytes.

ghost use Rattle.std.specs.Prelude.{◌≡◌, [], ◌+◌, ◌-◌, ◌<◌, ◌≤◌, length, drop, set, IfErr};
ghost use Rattle.text.specs.Pieces.{lines, fields, part};
ghost use Rattle.package.specs.Terms.{term, term_form, items_of, term_fits, start, follows, counted, judged, judge_term, block2};
ghost use Rattle.package.specs.Held.{seen_term, reach, seen_judged, reach_judged, above_of, seen_terms, TermsHeld};

use kindreading::kind::inner_rank;
use linetests::bounds::{coef_fits, word_fits};
use linetests::names::is_sum_names;
use numberreading::number::inner_number;
use package::{Head, Last, Limits, Refusal, TERM_G, TermAt, TermsAt};
use text::bytes::{find, is_within};
use wordorder::order::is_below;
use wordreading::word::last_word;

// A term line: kind item coef word.
#[tactic(auto, unfolding(package::specs::Held::seen_term, package::specs::Held::reach, package::specs::Terms::term_form, text::specs::Answers::seen_num, text::specs::Answers::next_num, text::specs::Answers::seen_word, text::specs::Answers::len_word))]
pub fn read_term_line(l: &[u8]) -> Option<TermAt>
    ensures result_value { seen_term l.now result ≡ term_form (fields l.now) }
    ensures result_in_bounds { reach result ≤ length l.now }
{
    let kind = inner_rank(b"GB", l, 0)?;
    let item = inner_number(l, kind.next)?;
    let coef = inner_number(l, item.next)?;
    let len = last_word(l, coef.next)?;
    Some(TermAt {
        kind: kind.value,
        item: item.value,
        coef: coef.value,
        start: coef.next,
        len,
    })
}

// How many items a kind has.
#[tactic(auto, unfolding(package::specs::Terms::items_of))]
fn items_of(h: Head, kind: u32) -> u32
    ensures { result ≡ items_of h kind }
{
    if kind == TERM_G { h.gens } else { h.basis }
}

// Whether item, coefficient and word of a term line are in bounds.
#[tactic(auto, unfolding(package::specs::Terms::term_fits))]
fn term_fits(h: Head, m: Limits, t: TermAt, w: &[u8]) -> bool
    requires { h.letters ≤ 26 }
    ensures { result ≡ term_fits h m t.kind t.item t.coef w.now }
{
    is_within(1, items_of(h, t.kind), t.item)
        && coef_fits(h.p, t.coef)
        && word_fits(m.len, h.letters, w)
}

// Whether a term line follows the one above in order.
#[tactic(auto, unfolding(package::specs::Terms::follows))]
fn term_follows(s: &[u8], last: Last, t: TermAt, w: &[u8]) -> bool
    requires { last.start + last.len ≤ length s.now }
    ensures { result ≡ follows (above_of s.now last) t.kind t.item w.now }
{
    if t.kind != last.kind {
        return last.kind < t.kind;
    }
    if t.item != last.item {
        return last.item < t.item;
    }
    is_below(w, &s[last.start..last.start + last.len])
}

// How many terms the item of a term line has with this one.
#[tactic(auto, unfolding(package::specs::Terms::counted))]
fn term_count(last: Last, t: TermAt) -> usize
    requires { last.count ≤ 65536 }
    ensures { result ≡ counted (above_of [] last) t.kind t.item }
{
    if t.kind == last.kind && t.item == last.item {
        return last.count + 1;
    }
    1
}

// Refusals 5, 6 and 7 of a term line of s that has its shape, or the line.
#[tactic(auto, using(lists::proofs::Parts::part_end), unfolding(package::specs::Held::seen_judged, package::specs::Held::reach_judged, package::specs::Terms::judged, package::specs::Terms::has_room, package::specs::Terms::counted))]
fn judge_read(
    h: Head,
    m: Limits,
    last: Last,
    total: usize,
    s: &[u8],
    t: TermAt,
    line: usize,
) -> Result<TermAt, Refusal>
    requires letters_bound { h.letters ≤ 26 }
    requires count_bound { last.count ≤ 65536 }
    requires len_in_bounds { last.start + last.len ≤ length s.now }
    requires len_in_bounds_2 { t.start + t.len ≤ length s.now }
    ensures result_value { seen_judged s.now result ≡ judged h m (above_of s.now last) total (term t.kind t.item t.coef (part s.now t.start t.len)) }
    ensures result_in_bounds { reach_judged result ≤ length s.now }
    ensures place { IfErr result (λ r. r.place ≡ line) }
{
    let w = &s[t.start..t.start + t.len];
    if !term_fits(h, m, t, w) {
        return Err(Refusal {
            number: 5,
            place: line,
        });
    }
    if !term_follows(s, last, t, w) {
        return Err(Refusal {
            number: 6,
            place: line,
        });
    }
    if m.terms < term_count(last, t) || 1024 <= total {
        return Err(Refusal {
            number: 7,
            place: line,
        });
    }
    Ok(t)
}

// The line s[at..e] of block 2, which has the number line: refusals 2, 5, 6, 7, or the term line, its word as a place in s.
#[tactic(auto, using(package::proofs::TermLines::term_inside, package::proofs::TermJudging::judge_2, package::proofs::TermJudging::judge_read), unfolding(package::specs::Held::seen_judged, package::specs::Held::reach_judged, package::specs::Held::seen_term))]
pub fn judge_term(
    h: Head,
    m: Limits,
    last: Last,
    total: usize,
    s: &[u8],
    at: usize,
    e: usize,
    line: usize,
) -> Result<TermAt, Refusal>
    requires letters_bound { h.letters ≤ 26 }
    requires count_bound { last.count ≤ 65536 }
    requires len_in_bounds { last.start + last.len ≤ length s.now }
    requires at_le_e { (at ≤ e) × (e ≤ length s.now) }
    ensures result_value { seen_judged s.now result ≡ judge_term h m (above_of s.now last) total (part s.now at (e - at)) }
    ensures result_in_bounds { reach_judged result ≤ length s.now }
    ensures place { IfErr result (λ r. r.place ≡ line) }
{
    let Some(t) = read_term_line(&s[at..e]) else {
        return Err(Refusal {
            number: 2,
            place: line,
        });
    };
    let start = at + t.start;
    judge_read(h, m, last, total, s, TermAt { start, ..t }, line)
}

// Stores a term at the place n of the five slices. Its numbers fit their slices.
fn store_term(
    kinds: &mut [u8],
    items: &mut [u8],
    coefs: &mut [u32],
    starts: &mut [u32],
    lens: &mut [u8],
    n: usize,
    t: TermAt,
)
    requires n_in_bounds { (n < length kinds.old) × (n < length items.old) × (n < length coefs.old) × (n < length starts.old) × (n < length lens.old) }
    requires kind_bound { (t.kind ≤ 255) × (t.item ≤ 255) × (t.start ≤ 65536) × (t.len ≤ 255) }
    ensures kinds_after { kinds.new ≡ set kinds.old n t.kind }
    ensures after { items.new ≡ set items.old n t.item }
    ensures coefs_after { coefs.new ≡ set coefs.old n t.coef }
    ensures starts_after { starts.new ≡ set starts.old n t.start }
    ensures lens_after { lens.new ≡ set lens.old n t.len }
{
    kinds[n] = t.kind as u8;
    items[n] = t.item as u8;
    coefs[n] = t.coef;
    starts[n] = t.start as u32;
    lens[n] = t.len as u8;
}

// Block 2, from the line that starts at the place from on, which has the number first. The five slices hold its terms.
// Where it is refused they are scratch: nothing is promised of what they hold.
pub fn read_terms(
    h: Head,
    m: Limits,
    s: &[u8],
    from: usize,
    first: usize,
    kinds: &mut [u8],
    items: &mut [u8],
    coefs: &mut [u32],
    starts: &mut [u32],
    lens: &mut [u8],
) -> Result<TermsAt, Refusal>
    requires letters_bound { (h.letters ≤ 26) × (h.gens ≤ 32) × (h.basis ≤ 64) }
    requires terms_bound { (m.terms ≤ 65536) × (m.len ≤ 255) }
    requires from_in_bounds { (from ≤ length s.now) × (first ≤ from + 4) × (length s.now ≤ 65536) }
    requires kinds_len { (length kinds.old ≡ 1024) × (length items.old ≡ 1024) × (length coefs.old ≡ 1024) × (length starts.old ≡ 1024) × (length lens.old ≡ 1024) }
    ensures result_after { seen_terms h s.now kinds.new items.new coefs.new starts.new lens.new result ≡ block2 h m start [] first (lines (drop from s.now)) }
    ensures terms_held { TermsHeld s.now starts.new lens.new result }
{
    let mut last = Last {
        kind: 0,
        item: 0,
        start: 0,
        len: 0,
        count: 0,
    };
    let mut n = 0;
    let mut at = from;
    let mut line = first;
    // A turn goes on where the next line starts: the places of the words count from the start of the text, which an iterator over lines does not tell.
    loop {
        let e = find(s, at, 10);
        if s.len() <= e {
            return Err(Refusal {
                number: 2,
                place: line,
            });
        }
        if is_sum_names(&s[at..e]) {
            return Ok(TermsAt {
                terms: n,
                at: e + 1,
                line: line + 1,
            });
        }
        let t = judge_term(h, m, last, n, s, at, e, line)?;
        store_term(kinds, items, coefs, starts, lens, n, t);
        last = Last {
            kind: t.kind,
            item: t.item,
            start: t.start,
            len: t.len,
            count: term_count(last, t),
        };
        n += 1;
        at = e + 1;
        line += 1;
    }
}
