// The program that prints the list: it reads a package on standard input and prints the list of its overlaps and inclusions, or
// `refused`, number and place. What is printed for a package's bytes is stated at printing::print_into; what the system reads and writes no
// contract can say.
#![tactic(auto)]

ghost use Rattle.std.specs.Prelude.{take, OnOk, IfSome};
ghost use Rattle.std.specs.Io.KnownBytes.{Appends, Consumes};
ghost use Rattle.printing.specs.Printed.{printed_text};

use inputreading::read_full;
use printing::print_into;
use std::io;
use std::io::{Read, Write};

// Reads a package and writes what is printed for it. One byte more than a package may have is asked for, so that a longer input is seen to be
// too long; nothing behind that byte is read. Behind an error, what was read and written is left open.
fn print_list<R: Read, W: Write>(input: &mut R, output: &mut W) -> io::Result<()>
    ensures read { OnOk result (IfSome (R.remaining input.old)
        (λ bytes. Consumes (R.remaining input.old) (R.remaining input.new) (take 65537 bytes))) }
    ensures written { OnOk result (IfSome (R.remaining input.old)
        (λ bytes. Appends (W.contents output.old) (W.contents output.new) (printed_text (take 65537 bytes)))) }
{
    let mut bytes = [0u8; 65537];
    let mut out = [0u8; 65536];
    let n = read_full(input, &mut bytes)?;
    let m = print_into(&bytes[..n], &mut out);
    output.write_all(&out[..m])
}

fn main(rt: HostRuntime) -> io::Result<()> {
    print_list(&mut rt.stdin(), &mut rt.stdout())
}
