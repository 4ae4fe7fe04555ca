// Writers: bytes, numbers and words put into a slice from a place on; the slice's other bytes are kept.
// `number_len` and `word_len` say beforehand how many bytes a writer puts.

ghost use Rattle.std.specs.Prelude.{◌≡◌, ℕ, ◌+◌, ◌%◌, ◌<◌, ◌≤◌, length, take, drop};
ghost use Rattle.std.proofs.lemmas.List.Edits.{sets};
ghost use Rattle.text.specs.Number.{write_number};
ghost use Rattle.text.specs.Word.{write_word};

// The eight bytes of b from i on, written to out from the place o on. All are read before the first is written, so that they are read at
// once and written at once.
fn put_eight(out: &mut [u8], o: usize, b: &[u8], i: usize)
    requires { (o + 7 < length out.old) × (i + 7 < length b.now) }
    ensures { out.new ≡ sets out.old o (take 8 (drop i b.now)) }
{
    let b0 = b[i];
    let b1 = b[i + 1];
    let b2 = b[i + 2];
    let b3 = b[i + 3];
    let b4 = b[i + 4];
    let b5 = b[i + 5];
    let b6 = b[i + 6];
    let b7 = b[i + 7];
    out[o] = b0;
    out[o + 1] = b1;
    out[o + 2] = b2;
    out[o + 3] = b3;
    out[o + 4] = b4;
    out[o + 5] = b5;
    out[o + 6] = b6;
    out[o + 7] = b7;
}

// The bytes of b but for the last ones, fewer than eight, written to out from the place at on. The answer is how many they are: with the
// others written behind them, all are.
fn put_eights(out: &mut [u8], at: usize, b: &[u8]) -> usize
    requires { at + length b.now ≤ length out.old }
    ensures upper_bound { result ≤ length b.now }
    ensures b_after { sets out.new (at + result) (drop result b.now) ≡ sets out.old at b.now }
{
    let eights = b.len() / 8;
    // (Not by `copy_from_slice`: the archive would need `memmove`.)
    for k in 0..eights {
        let i = 8 * k;
        put_eight(out, at + i, b, i);
    }
    8 * eights
}

// The bytes b, written to out from the place at on. The answer is the place behind them.
pub fn put_bytes(out: &mut [u8], at: usize, b: &[u8]) -> usize
    requires { at + length b.now ≤ length out.old }
    ensures value { result ≡ at + length b.now }
    ensures out_after { out.new ≡ sets out.old at b.now }
{
    let n = put_eights(out, at, b);
    // (Not by `copy_from_slice`, as in `put_eights`.)
    for i in n..b.len() {
        out[at + i] = b[i];
    }
    at + b.len()
}

// A word as it is written: `-` for the empty word.
fn written(w: &[u8]) -> &[u8]
    ensures { result.now ≡ write_word w.now }
{
    if w.is_empty() { b"-" } else { w }
}

// How many bytes a word is written with.
pub fn word_len(w: &[u8]) -> usize
    ensures { result ≡ length (write_word w.now) }
{
    written(w).len()
}

// The word w, written to out from the place at on: `-` for the empty word. The answer is the place behind it.
pub fn put_word(out: &mut [u8], at: usize, w: &[u8]) -> usize
    requires { at + length (write_word w.now) ≤ length out.old }
    ensures value { result ≡ at + length (write_word w.now) }
    ensures out_after { out.new ≡ sets out.old at (write_word w.now) }
{
    put_bytes(out, at, written(w))
}

// How many digits a number has. Counted by dividing, and not by `ilog10`, which took a list of many pairs a tenth longer: most numbers have one digit
// or two.
pub fn number_len(n: u64) -> usize
    ensures { result ≡ length (write_number n) }
{
    let mut k = 1;
    let mut m = n;
    while 10 <= m {
        m = m / 10;
        k += 1;
    }
    k
}

// The last digit of a number.
fn last_digit(n: u64) -> u8
    ensures { result ≡ 48 + n % 10 }
{
    48 + (n % 10) as u8
}

// The number n, written to out from the place at on. The answer is the place behind it.
pub fn put_number(out: &mut [u8], at: usize, n: u64) -> usize
    requires { at + length (write_number n) ≤ length out.old }
    ensures value { result ≡ at + length (write_number n) }
    ensures out_after { out.new ≡ sets out.old at (write_number n) }
{
    let end = at + number_len(n);
    let mut o = end;
    let mut m = n;
    while 10 <= m {
        o -= 1;
        out[o] = last_digit(m);
        m = m / 10;
    }
    out[at] = last_digit(m);
    end
}
