// What a service with an output slice answered, put into a text: its numbers in one line, and behind it the bytes that it wrote.

ghost use Rattle.std.specs.Prelude.{◌≡◌, ◌+◌, ◌≤◌, length, take};
ghost use Rattle.std.proofs.lemmas.List.Edits.{sets};
ghost use Rattle.cases.specs.HeadLine.{room_said, budget_said};
ghost use Rattle.cases.specs.CaseTexts.{output_text, listed_text, shortened_text};

use crate::head;
use lending::calls::{list_into, shorten_into};
use lending::kept::count_kept;
use printing::put_numbers_line;
use textwriting::write::put_bytes;

// The first n bytes of b, all where it has fewer, written to text from the place at on. The answer is the place behind them.
fn put_first(text: &mut [u8], at: usize, b: &[u8], n: usize) -> usize
    requires { at + length b.now ≤ length text.old }
    ensures value { (result ≡ at + length (take n b.now)) × (result ≤ length text.old) }
    ensures text_after { text.new ≡ sets text.old at (take n b.now) }
{
    if b.len() < n {
        return put_bytes(text, at, b);
    }
    put_bytes(text, at, &b[..n])
}

// Five numbers and the bytes written: number, place, count, how many bytes were written, how many behind those were kept.
fn put_output(
    text: &mut [u8],
    at: usize,
    number: u64,
    place: u64,
    count: u64,
    written: u64,
    out: &[u8],
) -> usize
    requires { at + 106 + length out.now ≤ length text.old }
    ensures value { (result ≡ at + length (output_text number place count written out.now)) × (result ≤ length text.old) }
    ensures text_after { text.new ≡ sets text.old at (output_text number place count written out.now) }
{
    let n = written as usize;
    let kept = count_kept(out, n) as u64;
    let end = put_numbers_line(text, at, &[number, place, count, written, kept]);
    put_first(text, end, out, n)
}

// Listing into the bytes of room that the head line says.
pub fn put_listed(text: &mut [u8], at: usize, line: &[u8], package: &[u8]) -> usize
    requires line_len { length line.now ≡ 81 }
    requires at_in_bounds { at + 65642 ≤ length text.old }
    ensures value { (result ≡ at + length (listed_text «package».now (room_said line.now))) × (result ≤ length text.old) }
    ensures text_after { text.new ≡ sets text.old at (listed_text «package».now (room_said line.now)) }
{
    let mut out = [b'~'; 65536];
    let a = list_into(package, &mut out, head::room(line));
    put_output(text, at, a.number, a.place, a.overlaps, a.written, &out)
}

// The short form of a formula within the budget, written into the bytes of room that the head line says.
pub fn put_shortened(
    text: &mut [u8],
    at: usize,
    line: &[u8],
    package: &[u8],
    formula: &[u8],
) -> usize
    requires line_len { length line.now ≡ 81 }
    requires at_in_bounds { at + 65642 ≤ length text.old }
    ensures value { (result ≡ at + length (shortened_text «package».now formula.now (budget_said line.now) (room_said line.now))) × (result ≤ length text.old) }
    ensures text_after { text.new ≡ sets text.old at (shortened_text «package».now formula.now (budget_said line.now) (room_said line.now)) }
{
    let mut out = [b'~'; 65536];
    let a = shorten_into(
        package,
        formula,
        head::budget(line),
        &mut out,
        head::room(line),
    );
    put_output(text, at, a.number, a.place, a.steps, a.written, &out)
}
