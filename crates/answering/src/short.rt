// The short form service: a formula's short form under a package, written as a formula.

ghost use Rattle.std.specs.Prelude.{◌≡◌, length};
ghost use Rattle.services.specs.Services.{shortened_as, shortened_into};

use packedterms::WorkingFormula;
use reducing::reduce::reduce;
use services::Shortened;
use shortwriting::short::{refusal, write_short};

// Brings a formula to its short form within a budget of steps. Any bytes are taken.
pub fn shorten(package: &[u8], formula: &[u8], budget: u32, out: &mut [u8]) -> Shortened
    ensures value { result ≡ shortened_as «package».now formula.now budget (length out.old) }
    ensures out_after { out.new ≡ shortened_into «package».now formula.now budget out.old }
{
    let mut t = [0u64; 3424];
    let mut f = WorkingFormula {
        coefs: [0; 560],
        sizes: [0; 560],
        blocks: [0; 3360],
        places: [0; 560],
        terms: 0,
    };
    match reduce(package, formula, budget, &mut t, &mut f) {
        Err(refused) => refusal(u64::from(refused.number), refused.place as u64),
        Ok(steps) => write_short(&t, &f, steps, out),
    }
}
