// Block 3: sum lines, with refusals 2, 5 and 6 in each.

ghost use Rattle.std.specs.Prelude.{◌≡◌, ℕ, ◌+◌, ◌≤◌, ◌<◌, length, drop, IfErr, IfOk, IfSome};
ghost use Rattle.text.specs.Pieces.{lines, part};
ghost use Rattle.text.specs.Bytes.{within};
ghost use Rattle.package.specs.Sums.{sum_item_fits, ofs, sum_fits, sum_follows, block3};
ghost use Rattle.package.specs.Held.{next_sum, seen_sum, Numbers32, SumInside, seen_sum_judged, JudgedInside, seen_sums};

use crate::line_end::line_word;
use kindreading::kind::inner_rank;
use linetests::bounds::{coef_fits, word_fits};
use numberreading::number::inner_number;
use package::{Head, Limits, Refusal, SUM_B, SUM_G, SumAt};
use wordreading::word::inner_word;

// The sum line from the place at on: kind item coef left of right. Its fields are read from the text: no field has a newline in it,
// and a newline must stand behind the last one.
pub fn read_sum(s: &[u8], at: usize) -> Option<SumAt>
    requires { at ≤ length s.now }
    ensures result_value { seen_sum s.now result ≡ next_sum (lines (drop at s.now)) }
    ensures sum_inside { SumInside s.now at result }
    ensures numbers { IfSome result Numbers32 }
{
    let kind = inner_rank(b"BGO", s, at)?;
    let item = inner_number(s, kind.next)?;
    let coef = inner_number(s, item.next)?;
    let left = inner_word(s, coef.next)?;
    let of = inner_number(s, left.next)?;
    let right = line_word(s, of.next)?;
    Some(SumAt {
        kind: kind.value,
        item: item.value as usize,
        coef: coef.value,
        left: coef.next,
        left_len: left.len,
        of: of.value as usize,
        right: of.next,
        right_len: right.len,
        next: right.next,
    })
}

// Whether x is one of 1, .., most.
fn is_one_of(most: u32, x: usize) -> bool
    ensures { result ≡ within 1 most x }
{
    (1..=most as usize).contains(&x)
}

// Whether the item of a sum line is in bounds.
#[tactic(auto, unfolding(package::specs::Sums::sum_item_fits))]
fn sum_item_fits(h: Head, kind: u32, item: usize) -> bool
    ensures { result ≡ sum_item_fits h kind item }
{
    if kind == SUM_B {
        return is_one_of(h.basis, item);
    }
    if kind == SUM_G {
        return is_one_of(h.gens, item);
    }
    1 <= item
}

// How many polynomials `of` may name.
#[tactic(auto, unfolding(package::specs::Sums::ofs))]
fn ofs_of(h: Head, kind: u32) -> u32
    ensures { result ≡ ofs h kind }
{
    if kind == SUM_B { h.gens } else { h.basis }
}

// Whether item, coefficient, `of` and words of a sum line of s are in bounds.
#[tactic(auto, using(lists::proofs::Parts::part_end), unfolding(package::specs::Sums::sum_fits))]
fn sum_fits(h: Head, m: Limits, s: &[u8], t: SumAt) -> bool
    requires letters_bound { h.letters ≤ 26 }
    requires words_inside { (t.left + t.left_len ≤ length s.now) × (t.right + t.right_len ≤ length s.now) }
    ensures { result ≡ sum_fits h m t.kind t.item t.coef (part s.now t.left t.left_len) t.of (part s.now t.right t.right_len) }
{
    sum_item_fits(h, t.kind, t.item)
        && coef_fits(h.p, t.coef)
        && is_one_of(ofs_of(h, t.kind), t.of)
        && word_fits(m.len, h.letters, &s[t.left..t.left + t.left_len])
        && word_fits(m.len, h.letters, &s[t.right..t.right + t.right_len])
}

// Whether a sum line follows the one above in order.
#[tactic(auto, unfolding(package::specs::Sums::sum_follows))]
fn sum_follows(last_kind: u32, last_item: usize, kind: u32, item: usize) -> bool
    ensures { result ≡ sum_follows last_kind last_item kind item }
{
    if kind == last_kind {
        return last_item <= item;
    }
    last_kind < kind
}

// The line of block 3 that starts at the place at and has the number line: refusals 2, 5, 6, or the sum line.
#[tactic(auto, using(crate::proofs::SumTurns::sums_on), unfolding(package::specs::Held::seen_sum, package::specs::Held::SumInside, package::specs::Held::seen_sum_judged, package::specs::Held::JudgedInside))]
pub fn judge_sum(
    h: Head,
    m: Limits,
    last_kind: u32,
    last_item: usize,
    s: &[u8],
    at: usize,
    line: usize,
) -> Result<SumAt, Refusal>
    requires letters_bound { h.letters ≤ 26 }
    requires at_in_bounds { at < length s.now }
    ensures by_index { (n : ℕ) → seen_sum_judged h m s.now n result ≡ block3 h m last_kind last_item n (lines (drop at s.now)) }
    ensures place { IfErr result (λ r. r.place ≡ line) }
    ensures judged_inside { JudgedInside s.now at result }
    ensures numbers { IfOk result Numbers32 }
{
    let Some(t) = read_sum(s, at) else {
        return Err(Refusal {
            number: 2,
            place: line,
        });
    };
    if !sum_fits(h, m, s, t) {
        return Err(Refusal {
            number: 5,
            place: line,
        });
    }
    if !sum_follows(last_kind, last_item, t.kind, t.item) {
        return Err(Refusal {
            number: 6,
            place: line,
        });
    }
    Ok(t)
}

// Block 3, from the line that starts at the place from on, which has the number first: refused, or sound.
pub fn judge_sum_block(
    h: Head,
    m: Limits,
    s: &[u8],
    from: usize,
    first: usize,
) -> Result<(), Refusal>
    requires letters_bound { h.letters ≤ 26 }
    requires from_in_bounds { (from ≤ length s.now) × (first ≤ from + 4) × (length s.now ≤ 65536) }
    ensures { seen_sums result ≡ block3 h m 0 0 first (lines (drop from s.now)) }
{
    let mut kind = 0;
    let mut item = 0;
    let mut at = from;
    let mut line = first;
    // A turn goes on where the line behind starts, which only the reader of the line tells.
    while at < s.len() {
        let t = judge_sum(h, m, kind, item, s, at, line)?;
        kind = t.kind;
        item = t.item;
        at = t.next;
        line += 1;
    }
    Ok(())
}
