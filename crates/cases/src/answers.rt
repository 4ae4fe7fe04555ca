// The text of a case's answer, put into a slice.

ghost use Rattle.std.specs.Prelude.{◌≡◌, ◌+◌, ◌≤◌, length};
ghost use Rattle.std.proofs.lemmas.List.Edits.{sets};
ghost use Rattle.services.specs.Services.{checked_as, membership_as};
ghost use Rattle.cases.specs.HeadLine.{budget_said};
ghost use Rattle.cases.specs.CaseTexts.{checked_text, membership_text, program_text, answer_text, case_text};

use crate::{head, outputs, packed, standing};
use printing::{print_into, put_numbers_line};
use textwriting::write::put_bytes;
use vaultgarlic::{vg_check, vg_member};

// The check of the package.
fn put_checked(text: &mut [u8], at: usize, package: &[u8]) -> usize
    requires { at + 64 ≤ length text.old }
    ensures value { (result ≡ at + length (checked_text (checked_as «package».now))) × (result ≤ length text.old) }
    ensures text_after { text.new ≡ sets text.old at (checked_text (checked_as «package».now)) }
{
    let a = vg_check(package);
    put_numbers_line(text, at, &[a.number, a.place, a.overlaps])
}

// Membership of the formula.
fn put_membership(text: &mut [u8], at: usize, line: &[u8], package: &[u8], formula: &[u8]) -> usize
    requires line_len { length line.now ≡ 81 }
    requires at_in_bounds { at + 85 ≤ length text.old }
    ensures value { (result ≡ at + length (membership_text (membership_as «package».now formula.now (budget_said line.now)))) × (result ≤ length text.old) }
    ensures text_after { text.new ≡ sets text.old at (membership_text (membership_as «package».now formula.now (budget_said line.now))) }
{
    let a = vg_member(package, formula, head::budget(line));
    put_numbers_line(text, at, &[a.number, a.place, a.steps, a.member])
}

// What the program overlap_list prints.
fn put_printed(text: &mut [u8], at: usize, package: &[u8]) -> usize
    requires { at + 65544 ≤ length text.old }
    ensures value { (result ≡ at + length (program_text «package».now)) × (result ≤ length text.old) }
    ensures text_after { text.new ≡ sets text.old at (program_text «package».now) }
{
    let mut out = [0u8; 65536];
    let n = print_into(package, &mut out);
    let end = put_bytes(text, at, b" prints\n");
    put_bytes(text, end, &out[..n])
}

// The answer that the head line's first byte asks for.
fn put_answer(text: &mut [u8], at: usize, line: &[u8], package: &[u8], formula: &[u8]) -> usize
    requires line_len { length line.now ≡ 81 }
    requires at_in_bounds { at + 65642 ≤ length text.old }
    ensures value { (result ≡ at + length (answer_text line.now «package».now formula.now)) × (result ≤ length text.old) }
    ensures text_after { text.new ≡ sets text.old at (answer_text line.now «package».now formula.now) }
{
    match line[0] {
        b'C' => put_checked(text, at, package),
        b'L' => outputs::put_listed(text, at, line, package),
        b'S' => outputs::put_shortened(text, at, line, package, formula),
        b'M' => put_membership(text, at, line, package, formula),
        b'W' => standing::put_standing(text, at, line, package, formula),
        b'N' => packed::put_packed(text, at, package),
        _ => put_printed(text, at, package),
    }
}

// All that is printed for a case, written to text from its beginning on. The answer is how many bytes it has.
pub fn put_case(text: &mut [u8], line: &[u8], package: &[u8], formula: &[u8]) -> usize
    requires line_len { length line.now ≡ 81 }
    requires text_len { length text.old ≡ 65693 }
    ensures value { (result ≡ length (case_text line.now «package».now formula.now)) × (result ≤ length text.old) }
    ensures text_after { text.new ≡ sets text.old 0 (case_text line.now «package».now formula.now) }
{
    let at = put_bytes(text, 0, &line[..51]);
    put_answer(text, at, line, package, formula)
}
