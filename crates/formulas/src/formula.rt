// Formulas: names line `coef word`, then terms in falling order. Whatever is wrong is refusal 16 at the first line with a fault.

ghost use Rattle.std.specs.Prelude.{◌≡◌, List, [], ℕ, ◌+◌, ◌-◌, ◌<◌, ◌≤◌, length, drop, set, IfErr};
ghost use Rattle.text.specs.Pieces.{lines, fields, part};
ghost use Rattle.package.specs.Formula.{row_form, row_fits, judge_row, rows, read_formula};
ghost use Rattle.package.specs.Held.{seen_row, reach_row, seen_formula, count_formula, WordsInside};

use linetests::bounds::{coef_fits, word_fits};
use linetests::names::is_formula_names;
use numberreading::number::inner_number;
use package::{Limits, Refusal, RowAt};
use text::bytes::find;
use wordorder::order::is_below;
use wordreading::word::last_word;

// A line of a formula: coef word.
#[tactic(auto, unfolding(package::specs::Held::seen_row, package::specs::Held::reach_row, package::specs::Formula::row_form, text::specs::Answers::seen_num, text::specs::Answers::next_num, text::specs::Answers::seen_word, text::specs::Answers::len_word))]
pub fn read_row(l: &[u8]) -> Option<RowAt>
    ensures result_value { seen_row l.now result ≡ row_form (fields l.now) }
    ensures result_in_bounds { reach_row result ≤ length l.now }
{
    let coef = inner_number(l, 0)?;
    let len = last_word(l, coef.next)?;
    Some(RowAt {
        coef: coef.value,
        start: coef.next,
        len,
    })
}

// Whether a term may stand behind n terms, the last of which has the word v.
#[tactic(auto, unfolding(package::specs::Formula::row_fits))]
fn row_fits(p: u32, letters: u32, m: Limits, v: &[u8], n: usize, coef: u32, w: &[u8]) -> bool
    requires { letters ≤ 26 }
    ensures { result ≡ row_fits p letters m v.now n coef w.now }
{
    if !coef_fits(p, coef) || !word_fits(m.len, letters, w) || m.terms <= n {
        return false;
    }
    n == 0 || is_below(w, v)
}

// The line s[at..e] of a formula, behind n terms, the last of which has the word v.
#[tactic(auto, using(package::proofs::FormulaLines::row_inside, package::proofs::FormulaLines::row_shapeless), unfolding(package::specs::Held::seen_row, package::specs::Held::reach_row))]
fn judge_row(
    p: u32,
    letters: u32,
    m: Limits,
    v: &[u8],
    n: usize,
    s: &[u8],
    at: usize,
    e: usize,
) -> Option<RowAt>
    requires letters_bound { letters ≤ 26 }
    requires at_le_e { (at ≤ e) × (e ≤ length s.now) }
    ensures result_value { seen_row s.now result ≡ judge_row p letters m v.now n (part s.now at (e - at)) }
    ensures result_in_bounds { reach_row result ≤ length s.now }
{
    let t = read_row(&s[at..e])?;
    let start = at + t.start;
    if !row_fits(p, letters, m, v, n, t.coef, &s[start..start + t.len]) {
        return None;
    }
    Some(RowAt { start, ..t })
}

// Stores a term at the place n of the three slices.
fn store_row(coefs: &mut [u32], starts: &mut [usize], lens: &mut [usize], n: usize, t: RowAt)
    requires { (n < length coefs.old) × (n < length starts.old) × (n < length lens.old) }
    ensures coefs_after { coefs.new ≡ set coefs.old n t.coef }
    ensures starts_after { starts.new ≡ set starts.old n t.start }
    ensures lens_after { lens.new ≡ set lens.old n t.len }
{
    coefs[n] = t.coef;
    starts[n] = t.start;
    lens[n] = t.len;
}

// The refusal of a formula, whatever is wrong with its line.
fn wrong_at(line: usize) -> Refusal
    ensures { result ≡ record { number = 16; place = line } }
{
    Refusal {
        number: 16,
        place: line,
    }
}

// The terms of a formula, from line 2 on, which starts at the place from.
fn read_rows(
    s: &[u8],
    p: u32,
    letters: u32,
    m: Limits,
    from: usize,
    coefs: &mut [u32],
    starts: &mut [usize],
    lens: &mut [usize],
) -> Result<usize, Refusal>
    requires letters_bound { (letters ≤ 26) × (m.terms ≤ 65536) × (1 ≤ from) × (from ≤ length s.now) }
    requires terms_in_bounds { (m.terms ≤ length coefs.old) × (m.terms ≤ length starts.old) × (m.terms ≤ length lens.old) }
    ensures result_after { seen_formula s.now coefs.new starts.new lens.new result ≡ rows p letters m [] [] 2 (lines (drop from s.now)) }
    ensures result_bound { (count_formula result ≤ m.terms) × WordsInside s.now starts.new lens.new (count_formula result) }
    ensures number { IfErr result (λ r. r.number ≡ 16) }
{
    let mut n = 0;
    let mut start = 0;
    let mut len = 0;
    let mut at = from;
    let mut line = 2;
    // A turn goes on where the next line starts: the places of the words count from the start of the text, which an iterator over lines does not tell.
    while at < s.len() {
        let e = find(s, at, 10);
        if s.len() <= e {
            return Err(wrong_at(line));
        }
        let v = &s[start..start + len];
        let Some(t) = judge_row(p, letters, m, v, n, s, at, e) else {
            return Err(wrong_at(line));
        };
        store_row(coefs, starts, lens, n, t);
        start = t.start;
        len = t.len;
        n += 1;
        at = e + 1;
        line += 1;
    }
    Ok(n)
}

// A formula over the field that p means, with so many letters in use: refusal 16 with its line, or the number of its terms, which the three slices hold.
// Where it is refused they are scratch: nothing is promised of what they hold.
#[tactic(auto, using(crate::proofs::FormulaTurns::formula_missing, crate::proofs::FormulaTurns::formula_unnamed, crate::proofs::FormulaTurns::formula_rows), unfolding(package::specs::Held::seen_formula, package::specs::Held::count_formula))]
pub fn read_formula(
    s: &[u8],
    p: u32,
    letters: u32,
    m: Limits,
    coefs: &mut [u32],
    starts: &mut [usize],
    lens: &mut [usize],
) -> Result<usize, Refusal>
    requires letters_bound { (letters ≤ 26) × (m.terms ≤ 65536) }
    requires terms_in_bounds { (m.terms ≤ length coefs.old) × (m.terms ≤ length starts.old) × (m.terms ≤ length lens.old) }
    ensures result_after { seen_formula s.now coefs.new starts.new lens.new result ≡ read_formula p letters m s.now }
    ensures result_bound { (count_formula result ≤ m.terms) × WordsInside s.now starts.new lens.new (count_formula result) }
    ensures number { IfErr result (λ r. r.number ≡ 16) }
{
    let e = find(s, 0, 10);
    if s.len() <= e || !is_formula_names(&s[0..e]) {
        return Err(wrong_at(1));
    }
    read_rows(s, p, letters, m, e + 1, coefs, starts, lens)
}
