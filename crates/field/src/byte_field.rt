// GF(256): product and inverse through a table of the powers of x and a table of logarithms.
// specs/ByteField.antt says which field it is; proofs/ByteField.antt shows that what is read from the tables is
// the field's.

ghost use Rattle.std.specs.Prelude.{◌≡◌, ◌+◌, ◌<◌};
ghost use Rattle.field.specs.ByteTables.{power_at, log_at};
ghost use Rattle.field.specs.Field.{gf256};

use crate::byte_tables::{LOGARITHMS, POWERS};

// a × b: the logarithms are added, and x^255 is 1.
pub fn product(a: u32, b: u32) -> u32
    requires { (a < 256) × (b < 256) }
    ensures { (result ≡ gf256.mul a b) × (result < 256) }
{
    if a == 0 || b == 0 {
        return 0;
    }
    let i = logarithm_sum(a, b);
    if i < 255 {
        return power(i);
    }
    power(i - 255)
}

// The inverse of a byte other than 0: that of 1 is 1, and else the two logarithms add up to 255, since x^255 is 1.
pub fn inverse(a: u32) -> u32
    requires { (0 < a) × (a < 256) }
    ensures { (result ≡ gf256.inv a) × (result < 256) }
{
    let i = logarithm(a);
    if i == 0 {
        return 1;
    }
    power(255 - i)
}

// x^i.
fn power(i: u32) -> u32
    requires { i < 255 }
    ensures { (result ≡ power_at i) × (result < 256) }
{
    u32::from(POWERS[i as usize])
}

// The sum of the logarithms of two bytes. The table is copied where it is named, so it is named once.
fn logarithm_sum(a: u32, b: u32) -> u32
    requires { (0 < a) × (a < 256) × (0 < b) × (b < 256) }
    ensures { (result ≡ log_at a + log_at b) × (result < 509) }
{
    let table = LOGARITHMS;
    u32::from(table[a as usize]) + u32::from(table[b as usize])
}

// The logarithm of a byte other than 0.
fn logarithm(a: u32) -> u32
    requires { (0 < a) × (a < 256) }
    ensures { (result ≡ log_at a) × (result < 255) }
{
    u32::from(LOGARITHMS[a as usize])
}
