// The numbers of a table, one function for each name.

ghost use Rattle.std.specs.Prelude.{◌≡◌, List, ℕ, ◌+◌, ◌/◌, ◌≤◌, ◌<◌, take, drop};
ghost use Rattle.packedwords.specs.Packed.{letter_of};
ghost use Rattle.table.specs.Table.{table_size, prime_in, letters_in, gens_in, basis_count_in, key_in, letter_in, inverse_in, first_in, coef_in, size_in, blocks_in};
ghost use Rattle.table.specs.Tabled.{Tabled};

use crate::Table;

// The number that means the field.
pub fn prime_in(t: &Table) -> u32
    requires { Tabled t.now }
    ensures { result ≡ prime_in t.now }
{
    t[0] as u32
}

// How many letters are in use.
pub fn letters_in(t: &Table) -> u32
    requires { Tabled t.now }
    ensures { result ≡ letters_in t.now }
{
    t[1] as u32
}

// How many relations there are.
pub fn gens_in(t: &Table) -> usize
    ensures { result ≡ gens_in t.now }
{
    t[2] as usize
}

// How many basis polynomials there are.
pub fn basis_in(t: &Table) -> usize
    ensures { result ≡ basis_count_in t.now }
{
    t[4] as usize
}

// The key of a letter.
pub fn key_in(t: &Table, a: u8) -> u64
    ensures { result ≡ key_in t.now a }
{
    t[16 + a as usize % 32]
}

// The letter of a code.
pub fn letter_in(t: &Table, c: usize) -> u8
    requires { c < 32 }
    ensures { result ≡ letter_in t.now c }
{
    (t[48 + c] % 256) as u8
}

// The inverse of the leading coefficient of basis polynomial g, from 0.
pub fn inverse_in(t: &Table, g: usize) -> u32
    requires { Tabled t.now × (g < basis_count_in t.now) }
    ensures { (result ≡ inverse_in t.now g) × (result < prime_in t.now) }
{
    t[80 + g] as u32
}

// The number of item j's first term.
pub fn first_in(t: &Table, j: usize) -> usize
    requires { j < 130 }
    ensures { result ≡ first_in t.now j }
{
    t[208 + j] as usize
}

// The upper half of a number.
fn upper(x: u64) -> u32
    ensures { result ≡ x / 4294967296 }
{
    (x / 4294967296) as u32
}

// The coefficient of term i.
pub fn coef_in(t: &Table, i: usize) -> u32
    requires { i < 1024 }
    ensures { result ≡ coef_in t.now i }
{
    upper(t[352 + 3 * i])
}

// The size of the word of term i.
pub fn size_in(t: &Table, i: usize) -> usize
    requires { i < 1024 }
    ensures { result ≡ size_in t.now i }
{
    (t[352 + 3 * i] % 4294967296) as usize
}

// Where in a table the two blocks of the word of term i start.
pub fn word_at(i: usize) -> usize
    requires { i < 1024 }
    ensures { (result + 2 ≤ table_size) × ((t : List ℕ) → take 2 (drop result t) ≡ blocks_in t i) }
{
    353 + 3 * i
}

// The code at place k of the word of term i.
pub fn code_in(t: &Table, i: usize, k: usize) -> usize
    requires { (i < 1024) × (k < 24) }
    ensures { (result ≡ letter_of (blocks_in t.now i) k) × (result < 32) }
{
    let s = 5 * (11 - k % 12);
    ((t[353 + 3 * i + k / 12] >> s) % 32) as usize
}
