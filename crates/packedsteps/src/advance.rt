// One step of a run within a budget.

ghost use Rattle.std.specs.Prelude.{◌≤◌};
ghost use Rattle.leads.specs.CodeIndex.{CodeIndexed};
ghost use Rattle.leads.specs.LeadCodes.{lead_codes_in};
ghost use Rattle.table.specs.Polynomials.{basis_in};
ghost use Rattle.table.specs.Tabled.{Tabled};
ghost use Rattle.packedterms.specs.InFormula.{formula_in, WorkingIn};
ghost use Rattle.packedsteps.specs.Spots.{NoSpots};
ghost use Rattle.packedsteps.specs.Advance.{AdvancedTo};

use crate::search::find_target;
use crate::step::step;
use crate::{Advanced, Stop};
use packedterms::{PackedWord, WorkingFormula};
use table::Table;

// A step that leaves more terms ends the run.
const MOST_TERMS: usize = 512;

// Makes the step that comes behind `used` steps of the budget, if there is one, on the formula, no word of which before term `from` has a leading word
// inside. The line taken away has its words in left and right. Each product is made in `product`.
pub fn advance(
    t: &Table,
    index: &[u64; 832],
    used: u32,
    budget: u32,
    f: &mut WorkingFormula,
    from: usize,
    left: &mut PackedWord<6>,
    right: &mut PackedWord<6>,
    product: &mut PackedWord<9>,
) -> Result<Option<Advanced>, Stop>
    requires tabled { Tabled t.now × CodeIndexed (lead_codes_in t.now) index.now × (used ≤ budget) × (f.old.terms ≤ 512) }
    requires working { WorkingIn t.now f.old × NoSpots (basis_in t.now) (formula_in t.now f.old) from }
    ensures advanced_to { AdvancedTo t.now (formula_in t.now f.old) used budget f.new left.new right.new result }
{
    let Some(target) = find_target(index, f, from) else {
        return Ok(None);
    };
    if used == budget {
        return Err(Stop::Spent);
    }
    let coef = step(t, f, target, left, right, product);
    if MOST_TERMS < f.terms {
        return Err(Stop::Over { step: used + 1 });
    }
    Ok(Some(Advanced { target, coef }))
}
