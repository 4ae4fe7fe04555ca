// The arithmetic of the field that the number p means, on the field's elements: the numbers below p.
// specs/Field.antt says which field that is (`field_of p`); proofs/Fields.antt shows its laws for every
// prime p, and for 256.

ghost use Rattle.std.specs.Prelude.{◌≡◌, ◌≤◌, ◌<◌};
ghost use Rattle.field.specs.Field.{inverse_mod, field_of};

use crate::byte_field::{inverse, product};

// a + b.
pub fn add(p: u32, a: u32, b: u32) -> u32
    requires { (p ≤ 65536) × (a < p) × (b < p) }
    ensures { (result ≡ (field_of p).add a b) × (result < p) }
{
    if p == 256 {
        return a ^ b;
    }
    let sum = a + b;
    if sum < p {
        return sum;
    }
    sum - p
}

// The opposite of a.
pub fn neg(p: u32, a: u32) -> u32
    requires { (p ≤ 65536) × (a < p) }
    ensures { (result ≡ (field_of p).neg a) × (result < p) }
{
    if p == 256 {
        return a;
    }
    if a == 0 {
        return 0;
    }
    p - a
}

// a × b.
pub fn mul(p: u32, a: u32, b: u32) -> u32
    requires { (p ≤ 65536) × (a < p) × (b < p) }
    ensures { (result ≡ (field_of p).mul a b) × (result < p) }
{
    if p == 256 {
        return product(a, b);
    }
    a * b % p
}

// The inverse of an element other than 0.
pub fn inv(p: u32, a: u32) -> u32
    requires { (p ≤ 65536) × (0 < a) × (a < p) }
    ensures { (result ≡ (field_of p).inv a) × (result < p) }
{
    if p == 256 {
        return inverse(a);
    }
    inverse_mod(p, a)
}

// The inverse of a modulo p, as the definition has it: -(p / a) times that of p % a, until 1 is left. The factors are multiplied on the way.
fn inverse_mod(p: u32, a: u32) -> u32
    requires { (p ≤ 65536) × (0 < a) × (a < p) }
    ensures { (result ≡ inverse_mod p a a) × (result < p) }
{
    // A `while`, as no index is counted: what is left falls from remainder to remainder.
    let mut factor = 1;
    let mut left = a;
    while 1 < left {
        factor = factor * (p - p / left) % p;
        left = p % left;
    }
    factor
}
