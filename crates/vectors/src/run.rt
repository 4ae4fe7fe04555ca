// One case: its head line, package and formula are read, and what is printed for it is written. What the system reads and writes no contract
// can say; the text in between is stated at cases::answers::put_case.

ghost use Rattle.std.specs.Prelude.{◌≡◌, ◌≤◌, ◌<◌, length, take, IfOk, OnOk, IfSome};
ghost use Rattle.std.specs.Bool.{OnTrue, OnFalse};
ghost use Rattle.std.specs.Io.KnownBytes.{Appends, Consumes, Keeps};
ghost use Rattle.cases.specs.CaseTexts.{case_text};
ghost use Rattle.vectors.specs.Stored.{RunsCase, IsShort};

use cases::answers::put_case;
use cases::head;
use inputreading::read_full;
use std::io;
use std::io::{Read, Write};

// Writes a case's text.
fn write_case<W: Write>(out: &mut W, line: &[u8], package: &[u8], formula: &[u8]) -> io::Result<()>
    requires { length line.now ≡ 81 }
    ensures { OnOk result (Appends (W.contents out.old) (W.contents out.new) (case_text line.now «package».now formula.now)) }
{
    let mut text = [0u8; 65693];
    let n = put_case(&mut text, line, package, formula);
    out.write_all(&text[..n])
}

// Reads n bytes into the first of input; false where the file ends before. Behind an error, what was read is left open.
fn read_bytes<R: Read>(file: &mut R, input: &mut [u8], n: usize) -> io::Result<bool>
    requires { n ≤ length input.old }
    ensures read { IfOk result (λ b. OnTrue b (Consumes (R.remaining file.old) (R.remaining file.new) (take n input.new))) }
    ensures ended { IfOk result (λ b. OnFalse b (IfSome (R.remaining file.old) (λ xs. length xs < n))) }
{
    let done = read_full(file, &mut input[..n])?;
    Ok(done == n)
}

// Runs the next case of the file; false where there is none, or one that is cut off. Behind an error, what was read and written is left open.
pub fn run_next<R: Read, W: Write>(file: &mut R, out: &mut W) -> io::Result<bool>
    ensures run { IfOk result (λ b. OnTrue b (RunsCase (R.remaining file.old) (R.remaining file.new) (W.contents out.old) (W.contents out.new))) }
    ensures ended { IfOk result (λ b. OnFalse b (IsShort (R.remaining file.old))) }
    ensures kept { IfOk result (λ b. OnFalse b (Keeps (W.contents out.old) (W.contents out.new))) }
{
    let mut line = [0u8; 81];
    let mut package = [0u8; 65537];
    let mut formula = [0u8; 100000];
    if !read_bytes(file, &mut line, 81)? {
        return Ok(false);
    }
    let n = head::package_len(&line);
    let m = head::formula_len(&line);
    if !read_bytes(file, &mut package, n)? {
        return Ok(false);
    }
    if !read_bytes(file, &mut formula, m + 1)? {
        return Ok(false);
    }
    write_case(out, &line, &package[..n], &formula[..m])?;
    Ok(true)
}
