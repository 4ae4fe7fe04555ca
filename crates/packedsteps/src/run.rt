// Steps one after the other, within a budget.

ghost use Rattle.std.specs.Prelude.{◌≡◌, ◌≤◌};
ghost use Rattle.algebra.specs.Steps as steps;
ghost use Rattle.table.specs.Table.{field_in, order_in};
ghost use Rattle.table.specs.Polynomials.{basis_in};
ghost use Rattle.table.specs.Tabled.{Tabled};
ghost use Rattle.packedterms.specs.InFormula.{formula_in, WorkingIn};
ghost use Rattle.leads.specs.CodeIndex.{CodeIndexed};
ghost use Rattle.leads.specs.LeadCodes.{lead_codes_in};
ghost use Rattle.packedsteps.specs.Outcome.{ran_seen, RanHolds};

use crate::Stop;
use crate::advance::advance;
use packedterms::{PackedWord, WorkingFormula};
use table::Table;

// Brings the formula to its short form, and tells after how many steps. Each search goes on at the term of the last step: that step changed no term
// before it.
pub fn run(t: &Table, budget: u32, index: &[u64; 832], f: &mut WorkingFormula) -> Result<u32, Stop>
    requires { Tabled t.now × CodeIndexed (lead_codes_in t.now) index.now × WorkingIn t.now f.old × (f.old.terms ≤ 512) }
    ensures result_after { ran_seen t.now f.new result
        ≡ steps.run 512 (field_in t.now) (order_in t.now) (basis_in t.now) budget 0 (formula_in t.now f.old) }
    ensures ran_holds { RanHolds t.now f.new result }
{
    let mut left = PackedWord::<6>::EMPTY;
    let mut right = PackedWord::<6>::EMPTY;
    let mut product = PackedWord {
        blocks: [0; 9],
        size: 0,
    };
    let mut from = 0;
    let mut used = 0;
    while let Some(made) = advance(
        t,
        index,
        used,
        budget,
        f,
        from,
        &mut left,
        &mut right,
        &mut product,
    )? {
        from = made.target.term;
        used += 1;
    }
    Ok(used)
}
