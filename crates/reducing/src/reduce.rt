// A formula brought to its short form under a package: refusals 1 to 18, or the short form, which the working formula then is.

ghost use Rattle.std.specs.Prelude.{◌≡◌, ◌≤◌, length};
ghost use Rattle.algebra.specs.Steps as steps;
ghost use Rattle.package.specs.Formula.{read_formula};
ghost use Rattle.acceptance.specs.Reduction.{formula_limits, reduction_of, reduction};
ghost use Rattle.table.specs.Table.{prime_in, letters_in, field_in, order_in};
ghost use Rattle.table.specs.Polynomials.{basis_in};
ghost use Rattle.table.specs.Tabled.{Tabled};
ghost use Rattle.packedterms.specs.InFormula.{formula_in, WorkingIn};
ghost use Rattle.leads.specs.CodeIndex.{CodeIndexed};
ghost use Rattle.leads.specs.LeadCodes.{lead_codes_in};
ghost use Rattle.reducing.specs.Reductions.{reduced_by, seen_reduced, ShortHeld};

use accepting::accept::accept;
use formulas::formula::read_formula;
use leads::indexing::index_leads;
use package::{Limits, Refusal};
use packedsteps::Stop;
use packedsteps::run::run;
use packedterms::WorkingFormula;
use packedtexts::loading::load;
use table::Table;
use table::numbers::{letters_in, prime_in};
use tabulating::dividing::divide_basis;

// The working formula, brought to its short form under the basis of t, by the index of its leading words: 17 and 18, or the number of steps. One index
// serves as many formulas as are reduced under the table.
#[tactic(auto, unfolding(crate::specs::Reductions::seen_reduced, crate::specs::Reductions::ShortHeld, packedsteps::specs::Outcome::ran_seen, packedsteps::specs::Outcome::RanHolds, acceptance::specs::Reduction::reduction_of))]
pub fn reduce_held(
    t: &Table,
    index: &[u64; 832],
    budget: u32,
    f: &mut WorkingFormula,
) -> Result<u32, Refusal>
    requires { Tabled t.now × CodeIndexed (lead_codes_in t.now) index.now × WorkingIn t.now f.old × (f.old.terms ≤ 512) }
    ensures result_after { seen_reduced t.now f.new result
        ≡ reduction_of budget
        (steps.run 512 (field_in t.now) (order_in t.now) (basis_in t.now) budget 0 (formula_in t.now f.old)) }
    ensures short_held { ShortHeld t.now f.new result }
{
    run(t, budget, index, f).map_err(|stop| match stop {
        Stop::Over { step } => Refusal {
            number: 17,
            place: step as usize,
        },
        Stop::Spent => Refusal {
            number: 18,
            place: budget as usize,
        },
    })
}

// A formula's bytes under the basis of t: 16, 17 and 18, or the number of steps.
fn reduce_formula(
    t: &Table,
    text: &[u8],
    budget: u32,
    f: &mut WorkingFormula,
) -> Result<u32, Refusal>
    requires { Tabled t.now }
    ensures result_after { seen_reduced t.now f.new result
        ≡ reduced_by t.now budget
        (read_formula (prime_in t.now) (letters_in t.now) formula_limits text.now) }
    ensures short_held { ShortHeld t.now f.new result }
{
    let mut fc = [0u32; 48];
    let mut fs = [0usize; 48];
    let mut fl = [0usize; 48];
    let limits = Limits { terms: 48, len: 24 };
    let p = prime_in(t);
    let letters = letters_in(t);
    let n = read_formula(text, p, letters, limits, &mut fc, &mut fs, &mut fl)?;
    load(t, &fc[0..n], &fs[0..n], &fl[0..n], text, f);
    let mut index = [0u64; 832];
    index_leads(t, &mut index);
    reduce_held(t, &index, budget, f)
}

// A formula's bytes under a package's bytes: 1 to 18, or the short form, which the working formula then is, and the number of steps; t is the package's
// table, its basis divided by the leading coefficients: steps are those of the basis as it stands, and no line of theirs is told. (To tell lines, run on
// the table as `accept` leaves it: `step` then multiplies by the inverse.)
pub fn reduce(
    package: &[u8],
    text: &[u8],
    budget: u32,
    t: &mut Table,
    f: &mut WorkingFormula,
) -> Result<u32, Refusal>
    requires { length t.old ≡ 3424 }
    ensures result_after { seen_reduced t.new f.new result ≡ reduction «package».now text.now budget }
    ensures short_held { ShortHeld t.new f.new result }
{
    accept(package, t, f)?;
    divide_basis(t);
    reduce_formula(t, text, budget, f)
}
