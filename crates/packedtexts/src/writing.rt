// The bytes of the packed working formula: how many they are, and written to a slice.

ghost use Rattle.std.specs.Prelude.{◌≡◌, List, [], ◌∷◌, map, ℕ, ◌+◌, ◌%◌, ◌≤◌, ◌<◌, length, get_or};
ghost use Rattle.std.proofs.lemmas.List.Edits.{sets};
ghost use Rattle.text.specs.Word.{write_word};
ghost use Rattle.packedwords.specs.Packed.{unpacked, Packs};
ghost use Rattle.package.specs.Writing.{write_formula};
ghost use Rattle.packedtexts.specs.FormulaText.{row_text};
ghost use Rattle.table.specs.Table.{letter_in};
ghost use Rattle.packedterms.specs.Formula.{blocks_at, word_at, formula};
ghost use Rattle.packedterms.specs.InFormula.{formula_in, HoldsIn};

use packedterms::WorkingFormula;
use packing::block::up;
use table::Table;
use table::numbers::letter_in;
use textwriting::write::{number_len, put_bytes, put_number};

// How many bytes the line of the term at place s has. (`word_len` of textwriting asks a slice of letters; here the size alone says how many there are.)
#[tactic(auto, using(crate::proofs::Texts::number_length))]
fn row_len(f: &WorkingFormula, s: usize) -> usize
    requires { s < 560 }
    ensures bound { result ≤ 8589934592 }
    ensures value { (t w : List ℕ) → result ≡ length (row_text (get_or f.now.coefs s 0) (word_at t f.now.sizes w s)) }
{
    let letters = f.sizes[s] as usize % 256;
    number_len(u64::from(f.coefs[s])) + letters.max(1) + 2
}

// How many bytes the formula has. Its coefficients and the lengths of its words say that, whatever letters these have.
pub fn text_len(f: &WorkingFormula) -> usize
    requires { (f.now.terms ≤ 560) × ((k : ℕ) → k < f.now.terms → get_or f.now.places k 0 < 560) }
    ensures { (t w : List ℕ) → result
        ≡ length (write_formula (formula t f.now.coefs f.now.sizes w f.now.places f.now.terms)) }
{
    let mut r = 10;
    for k in 0..f.terms {
        r += row_len(f, usize::from(f.places[k]));
    }
    r
}

// The r letters of the block x, written to out from the place at on. A letter is read in front of the block, which then moves up by a letter.
fn put_block(t: &Table, out: &mut [u8], at: usize, x: u64, r: usize)
    requires { Packs r (x ∷ []) × (at + r ≤ length out.old) }
    ensures { out.new ≡ sets out.old at (map (letter_in t.now) (unpacked r (x ∷ []))) }
{
    let mut y = x;
    for i in 0..r {
        out[at + i] = letter_in(t, (y >> 55) as usize);
        y = up(y, 5);
    }
}

// The m letters of the word at place s, written to out from the place at on: whole blocks, of twelve letters each, and then what is left.
fn put_letters(t: &Table, out: &mut [u8], at: usize, f: &WorkingFormula, s: usize, m: usize)
    requires { (s < 560) × Packs m (blocks_at f.now.blocks s) × (at + m ≤ length out.old) }
    ensures { out.new ≡ sets out.old at (map (letter_in t.now) (unpacked m (blocks_at f.now.blocks s))) }
{
    let whole = m / 12;
    for j in 0..whole {
        put_block(t, out, at + 12 * j, f.blocks[s * 6 + j], 12);
    }
    let r = m % 12;
    if r > 0 {
        put_block(t, out, at + 12 * whole, f.blocks[s * 6 + whole], r);
    }
}

// The word at place s, written to out from the place at on: `-` for the empty word. The answer is the place behind it. (`put_word` of textwriting
// copies the bytes of a word; here the letters are unpacked to where they are to stand.)
fn put_word(t: &Table, out: &mut [u8], at: usize, f: &WorkingFormula, s: usize) -> usize
    requires held { (s < 560) × Packs (get_or f.now.sizes s 0 % 256) (blocks_at f.now.blocks s) }
    requires fits { at + length (write_word (word_at t.now f.now.sizes f.now.blocks s)) ≤ length out.old }
    ensures value { result ≡ at + length (write_word (word_at t.now f.now.sizes f.now.blocks s)) }
    ensures out_after { out.new ≡ sets out.old at (write_word (word_at t.now f.now.sizes f.now.blocks s)) }
{
    let m = f.sizes[s] as usize % 256;
    if m == 0 {
        out[at] = b'-';
        return at + 1;
    }
    put_letters(t, out, at, f, s, m);
    at + m
}

// The line of the term at place s, written to out from the place at on. The answer is the place behind it.
#[tactic(auto, using(crate::proofs::Texts::row_length))]
fn put_row(t: &Table, out: &mut [u8], at: usize, f: &WorkingFormula, s: usize) -> usize
    requires held { (s < 560) × Packs (get_or f.now.sizes s 0 % 256) (blocks_at f.now.blocks s) }
    requires fits { at + length (row_text (get_or f.now.coefs s 0) (word_at t.now f.now.sizes f.now.blocks s)) ≤ length out.old }
    ensures value { result ≡ at + length (row_text (get_or f.now.coefs s 0) (word_at t.now f.now.sizes f.now.blocks s)) }
    ensures out_after { out.new ≡ sets out.old at (row_text (get_or f.now.coefs s 0) (word_at t.now f.now.sizes f.now.blocks s)) }
{
    let a = put_number(out, at, u64::from(f.coefs[s]));
    out[a] = b' ';
    let b = put_word(t, out, a + 1, f, s);
    out[b] = b'\n';
    b + 1
}

// The formula, written to the front of out. The answer is how many bytes it has.
pub fn write_text(t: &Table, f: &WorkingFormula, out: &mut [u8]) -> usize
    requires holds { HoldsIn t.now f.now }
    requires fits { length (write_formula (formula_in t.now f.now)) ≤ length out.old }
    ensures value { result ≡ length (write_formula (formula_in t.now f.now)) }
    ensures out_after { out.new ≡ sets out.old 0 (write_formula (formula_in t.now f.now)) }
{
    let mut at = put_bytes(out, 0, b"coef word\n");
    for k in 0..f.terms {
        at = put_row(t, out, at, f, usize::from(f.places[k]));
    }
    at
}
