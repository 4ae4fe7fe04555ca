// What the program overlap_list prints for a package, made in a slice: a library, so that every program that runs it or tries it calls the
// same functions. Reading and writing are the programs' own.
#![tactic(auto)]

ghost use Rattle.std.specs.Prelude.{◌≡◌, ◌+◌, ◌≤◌, length};
ghost use Rattle.std.proofs.lemmas.List.Edits.{sets};
ghost use Rattle.printing.specs.Printed.{numbers_line, refused_line, printed_text};

use textwriting::write::{put_bytes, put_number};
use vaultgarlic::vg_list_overlaps;

// A line of numbers, each behind one space, written to out from the place at on. The answer is the place behind the line's end.
pub fn put_numbers_line(out: &mut [u8], at: usize, ns: &[u64]) -> usize
    requires { at + length (numbers_line ns.now) ≤ length out.old }
    ensures value { result ≡ at + length (numbers_line ns.now) }
    ensures out_after { out.new ≡ sets out.old at (numbers_line ns.now) }
{
    let mut o = at;
    for &n in ns {
        out[o] = b' ';
        o = put_number(out, o + 1, n);
    }
    out[o] = b'\n';
    o + 1
}

// The line that is printed for a refusal, written to out from its beginning on. The answer is how many bytes it has.
fn put_refused(out: &mut [u8], number: u64, place: u64) -> usize
    requires { 50 ≤ length out.old }
    ensures value { (result ≡ length (refused_line number place)) × (result ≤ 50) }
    ensures out_after { out.new ≡ sets out.old 0 (refused_line number place) }
{
    let at = put_bytes(out, 0, b"refused");
    put_numbers_line(out, at, &[number, place])
}

// What is printed for a package, written to the 65,536 bytes lent, from their beginning on: the list, or the line of the refusal. The
// answer is how many bytes are printed.
pub fn print_into(package: &[u8], out: &mut [u8]) -> usize
    requires { length out.old ≡ 65536 }
    ensures value { (result ≡ length (printed_text «package».now)) × (result ≤ 65536) }
    ensures out_after { out.new ≡ sets out.old 0 (printed_text «package».now) }
{
    let a = vg_list_overlaps(package, out);
    if a.number == 0 {
        return a.written as usize;
    }
    put_refused(out, a.number, a.place)
}
