// The coefficient of the line that a step takes away.

ghost use Rattle.std.specs.Prelude.{◌≡◌, ◌≤◌, ◌<◌};
ghost use Rattle.algebra.specs.Groebner.{lead_coef};
ghost use Rattle.algebra.specs.Ideal.{family};
ghost use Rattle.table.specs.Polynomials.{basis_in};
ghost use Rattle.table.specs.Table.{prime_in, field_in, basis_count_in};
ghost use Rattle.table.specs.Tabled.{Tabled};

use field::arithmetic::mul;
use table::Table;
use table::numbers::{inverse_in, prime_in};

// x divided by the leading coefficient of basis polynomial `of`: times the inverse that the table has. Nothing is multiplied where that is 1.
pub fn divide(t: &Table, x: u32, of: usize) -> u32
    requires { Tabled t.now × (x < prime_in t.now) × (1 ≤ of) × (of ≤ basis_count_in t.now) }
    ensures { (result ≡ (field_in t.now).mul x ((field_in t.now).inv (lead_coef (family (basis_in t.now) of))))
        × (result < prime_in t.now) }
{
    let y = inverse_in(t, of - 1);
    if y == 1 {
        return x;
    }
    mul(prime_in(t), x, y)
}
