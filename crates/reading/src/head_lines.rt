// The head lines of a package, one behind the other: the names of block 1, the counts, the names of block 2.

ghost use Rattle.std.specs.Prelude.{◌≡◌, ◌≤◌, length, drop};
ghost use Rattle.lists.specs.Same.{same};
ghost use Rattle.text.specs.Pieces.{lines};
ghost use Rattle.package.specs.Package.{names_line, counts_line, head_lines_of};
ghost use Rattle.package.specs.Held.{seen_names, NamesHeld, seen_counts, CountsHeld, seen_head_lines, HeadHeld};
ghost use Rattle.reading.specs.Names.{names_at};

use linetests::counts::{counts_fit, field_fits, read_head};
use linetests::names::{is_head_names, is_term_names};
use package::{CountsAt, HeadAt, Refusal};
use text::bytes::find;

// Whether a line is the names line that has the number.
#[tactic(auto, unfolding(crate::specs::Names::names_at))]
fn is_names(l: &[u8], line: usize) -> bool
    ensures { result ≡ same l.now (names_at line) }
{
    if line == 1 {
        is_head_names(l)
    } else {
        is_term_names(l)
    }
}

// The names line with the number line, which starts at the place from: refusal 2, or where the line behind it starts.
#[tactic(auto, using(package::proofs::Joining::names_missing, package::proofs::Joining::names_other, package::proofs::Joining::names_same), unfolding(package::specs::Held::seen_names, package::specs::Held::NamesHeld))]
fn read_names(s: &[u8], from: usize, line: usize) -> Result<usize, Refusal>
    requires { from ≤ length s.now }
    ensures result_value { seen_names s.now result ≡ names_line (names_at line) line (lines (drop from s.now)) }
    ensures names_held { NamesHeld s.now result }
{
    let e = find(s, from, 10);
    if s.len() <= e || !is_names(&s[from..e], line) {
        return Err(Refusal {
            number: 2,
            place: line,
        });
    }
    Ok(e + 1)
}

// Line 2, the counts, which starts at the place from: its shape, then 3 for p, then 4 for the other counts.
#[tactic(auto, using(package::proofs::Joining::counts_missing, package::proofs::Joining::counts_wrong, package::proofs::Joining::counts_3, package::proofs::Joining::counts_4, package::proofs::Joining::counts_right, package::proofs::CountsLine::counts_bounds), unfolding(package::specs::Held::seen_head, package::specs::Held::seen_counts, package::specs::Held::CountsHeld))]
fn read_counts(s: &[u8], from: usize) -> Result<CountsAt, Refusal>
    requires { from ≤ length s.now }
    ensures result_value { seen_counts s.now result ≡ counts_line (lines (drop from s.now)) }
    ensures counts_held { CountsHeld s.now result }
{
    let e = find(s, from, 10);
    if s.len() <= e {
        return Err(Refusal {
            number: 2,
            place: 2,
        });
    }
    let Some(head) = read_head(&s[from..e]) else {
        return Err(Refusal {
            number: 2,
            place: 2,
        });
    };
    if !field_fits(head.p) {
        return Err(Refusal {
            number: 3,
            place: 2,
        });
    }
    if !counts_fit(head) {
        return Err(Refusal {
            number: 4,
            place: 2,
        });
    }
    Ok(CountsAt { head, at: e + 1 })
}

// Lines 1 to 3: refusals 2, 3 and 4, or the counts, and the place and the number of the first line of block 2.
#[tactic(auto, unfolding(package::specs::Held::NamesHeld, package::specs::Held::CountsHeld, package::specs::Held::HeadHeld))]
pub fn read_head_lines(s: &[u8]) -> Result<HeadAt, Refusal>
    ensures result_value { seen_head_lines s.now result ≡ head_lines_of (lines s.now) }
    ensures head_held { HeadHeld s.now result }
{
    let a = read_names(s, 0, 1)?;
    let counts = read_counts(s, a)?;
    let b = read_names(s, counts.at, 3)?;
    Ok(HeadAt {
        head: counts.head,
        at: b,
        line: 4,
    })
}
