// check_package: whether a package is accepted, and how many overlaps and inclusions it has.

ghost use Rattle.std.specs.Prelude.{◌≡◌};
ghost use Rattle.services.specs.Services.{checked_as};

use accepting::accept::accept;
use packedterms::WorkingFormula;
use services::Checked;

// Checks a package. Any bytes are taken.
pub fn check_package(package: &[u8]) -> Checked
    ensures { result ≡ checked_as «package».now }
{
    let mut t = [0u64; 3424];
    let mut f = WorkingFormula {
        coefs: [0; 560],
        sizes: [0; 560],
        blocks: [0; 3360],
        places: [0; 560],
        terms: 0,
    };
    match accept(package, &mut t, &mut f) {
        Err(refusal) => Checked {
            number: u64::from(refusal.number),
            place: refusal.place as u64,
            overlaps: 0,
        },
        Ok(overlaps) => Checked {
            number: 0,
            place: 0,
            overlaps: overlaps as u64,
        },
    }
}
