// is_member: whether a formula is a sum over the package's relations.

ghost use Rattle.std.specs.Prelude.{◌≡◌};
ghost use Rattle.services.specs.Services.{membership_as};

use packedterms::WorkingFormula;
use reducing::reduce::reduce;
use services::Membership;

// Says whether a formula's short form, within a budget of steps, is zero. Any bytes are taken.
pub fn is_member(package: &[u8], formula: &[u8], budget: u32) -> Membership
    ensures { result ≡ membership_as «package».now formula.now budget }
{
    let mut t = [0u64; 3424];
    let mut f = WorkingFormula {
        coefs: [0; 560],
        sizes: [0; 560],
        blocks: [0; 3360],
        places: [0; 560],
        terms: 0,
    };
    match reduce(package, formula, budget, &mut t, &mut f) {
        Err(refusal) => Membership {
            number: u64::from(refusal.number),
            place: refusal.place as u64,
            steps: 0,
            member: 0,
        },
        Ok(steps) => Membership {
            number: 0,
            place: 0,
            steps: u64::from(steps),
            member: u64::from(f.terms == 0),
        },
    }
}
