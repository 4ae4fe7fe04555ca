// The basis of a table divided by its leading coefficients, for steps, which then multiply by no inverse.

ghost use Rattle.std.specs.Prelude.{◌≡◌, map, ◌≤◌, ◌<◌};
ghost use Rattle.algebra.specs.Groebner.{monic};
ghost use Rattle.table.specs.Table.{prime_in, letters_in, gens_in, basis_count_in, field_in, terms_in};
ghost use Rattle.table.specs.Polynomials.{relations_in, basis_in};
ghost use Rattle.table.specs.Tabled.{Tabled};
ghost use Rattle.tabulating.specs.Divided.{RowsScaled, ItemDivided};

use crate::rows::joined;
use field::arithmetic::mul;
use table::Table;
use table::numbers::{basis_in, coef_in, first_in, gens_in, inverse_in, prime_in, size_in};

// The coefficients of the terms from first on, before end, each times y.
fn scale_rows(t: &mut Table, y: u32, first: usize, end: usize)
    requires { Tabled t.old × (y < prime_in t.old) × (first ≤ end) × (end ≤ terms_in t.old) }
    ensures { RowsScaled t.old y first end t.new }
{
    let p = prime_in(t);
    for i in first..end {
        let z = mul(p, y, coef_in(t, i));
        let e = size_in(t, i);
        t[352 + 3 * i] = joined(z, e);
    }
}

// Basis polynomial g, from 0, divided by its leading coefficient. Nothing is multiplied where that is 1.
fn divide_item(t: &mut Table, g: usize)
    requires { Tabled t.old × (g < basis_count_in t.old) }
    ensures { ItemDivided t.old g t.new }
{
    let y = inverse_in(t, g);
    if y == 1 {
        return;
    }
    let item = gens_in(t) + 1 + g;
    let first = first_in(t, item);
    let end = first_in(t, item + 1);
    scale_rows(t, y, first, end);
    t[80 + g] = 1;
}

// Each polynomial of the basis, divided by its leading coefficient.
pub fn divide_basis(t: &mut Table)
    requires { Tabled t.old }
    ensures tabled { Tabled t.new }
    ensures t_unchanged { (prime_in t.new ≡ prime_in t.old) × (letters_in t.new ≡ letters_in t.old) }
    ensures t_unchanged_2 { (gens_in t.new ≡ gens_in t.old) × (basis_count_in t.new ≡ basis_count_in t.old) }
    ensures t_unchanged_3 { relations_in t.new ≡ relations_in t.old }
    ensures t_after { basis_in t.new ≡ map (monic (field_in t.old)) (basis_in t.old) }
{
    let n = basis_in(t);
    for g in 0..n {
        divide_item(t, g);
    }
}
