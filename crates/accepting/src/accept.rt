// A package's bytes, read and checked: refusals 1 to 15, or the package in its table.

ghost use Rattle.std.specs.Prelude.{◌≡◌, length};
ghost use Rattle.accepting.specs.Accepted.{Accepts};

use basis::basis::judge_basis;
use checking::check::check;
use overlapsearch::leading::LeadingWords;
use package::Refusal;
use packedterms::WorkingFormula;
use reading::read::read_package;
use table::Table;
use tabulating::filling::tabulate;

// Reads and checks a package: 1 to 7 in reading; then 8; then, on its table, 10 to 15. Where it is accepted, t is its table, and the answer is the
// number of its overlaps and inclusions. The differences of sums are made in the working formula, whatever it was.
pub fn accept(package: &[u8], t: &mut Table, f: &mut WorkingFormula) -> Result<usize, Refusal>
    requires { length t.old ≡ 3424 }
    ensures { Accepts «package».now t.new result }
{
    let mut kinds = [0u8; 1024];
    let mut items = [0u8; 1024];
    let mut coefs = [0u32; 1024];
    let mut starts = [0u32; 1024];
    let mut lens = [0u8; 1024];
    let mut firsts = [0usize; 98];
    let read = read_package(
        package,
        &mut kinds,
        &mut items,
        &mut coefs,
        &mut starts,
        &mut lens,
        &mut firsts,
    )?;
    let head = read.head;
    let mut heads = [0usize; 64];
    let mut headlens = [0usize; 64];
    // The refusal is returned by name, and not by `?`, so that an edit can return something else in its place (must-fail/unsound-basis-taken.edit).
    if let Err(refusal) = judge_basis(
        &coefs,
        &starts,
        &lens,
        package,
        &firsts,
        head.gens as usize + 1,
        head.basis as usize,
        &mut heads,
        &mut headlens,
    ) {
        return Err(refusal);
    }
    tabulate(
        t, head, &coefs, &starts, &lens, package, &firsts, read.terms,
    );
    let words = LeadingWords {
        starts: &heads,
        lens: &headlens,
        bytes: package,
        count: head.basis as usize,
    };
    check(t, &words, read.at, read.line, f)
}
