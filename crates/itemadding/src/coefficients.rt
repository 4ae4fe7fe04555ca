// The coefficients of a multiple of a polynomial of the table.

ghost use Rattle.std.specs.Prelude.{◌≡◌, ◌<◌};
ghost use Rattle.table.specs.Table.{prime_in, field_in, terms_in, coef_in};
ghost use Rattle.table.specs.Tabled.{Tabled};

use field::arithmetic::{mul, neg};
use table::Table;
use table::numbers::{coef_in, prime_in};

// x times the coefficient of term i of the table. Nothing is multiplied where x is 1.
pub fn scaled_coef(t: &Table, x: u32, i: usize) -> u32
    requires { Tabled t.now × (x < prime_in t.now) × (i < terms_in t.now) }
    ensures { (result ≡ (field_in t.now).mul x (coef_in t.now i)) × (result < prime_in t.now) }
{
    let z = coef_in(t, i);
    if x == 1 {
        return z;
    }
    mul(prime_in(t), x, z)
}

// The opposite of x times the coefficient of term i of the table. Nothing is multiplied where that coefficient is 1.
pub fn opposite_coef(t: &Table, x: u32, i: usize) -> u32
    requires { Tabled t.now × (x < prime_in t.now) × (i < terms_in t.now) }
    ensures { (result ≡ (field_in t.now).mul ((field_in t.now).neg x) (coef_in t.now i)) × (result < prime_in t.now) }
{
    let p = prime_in(t);
    let y = neg(p, x);
    let z = coef_in(t, i);
    if z == 1 {
        return y;
    }
    mul(p, y, z)
}
