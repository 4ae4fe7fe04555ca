// The numbers of a kind of sums.

ghost use Rattle.std.specs.Prelude.{◌≡◌};
ghost use Rattle.kindsums.specs.Kinds.{numbers_in};

use crate::KindNumbers;
use package::SUM_B;
use table::Table;
use table::numbers::{basis_in, gens_in};

// The numbers of a kind: B sums are for the basis, over the relations; G sums are for the relations, over the basis.
#[tactic(auto, unfolding(crate::specs::Kinds::numbers_in))]
pub fn kind_numbers(t: &Table, kind: u32) -> KindNumbers
    ensures { result ≡ numbers_in t.now kind }
{
    let gens = gens_in(t);
    if kind == SUM_B {
        KindNumbers {
            number: 11,
            count: basis_in(t),
            targets: gens,
            others: 0,
        }
    } else {
        KindNumbers {
            number: 12,
            count: gens,
            targets: 0,
            others: gens,
        }
    }
}
