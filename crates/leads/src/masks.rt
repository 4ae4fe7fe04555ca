// Masks of 64 bits.

ghost use Rattle.std.specs.Prelude.{◌≡◌, ◌^◌, ◌<◌, length};
ghost use Rattle.std.specs.Int.Bits.{bit_or};
ghost use Rattle.leads.specs.Masks.{LowestBit, with_mark};

// The mask with bit g as well.
pub fn with_bit(m: u64, g: usize) -> u64
    requires { g < 64 }
    ensures { result ≡ bit_or m (2 ^ g) }
{
    m | (1 << g)
}

// Word g is marked in one of the masks.
pub fn mark(index: &mut [u64], at: usize, g: usize)
    requires g_bound { g < 64 }
    requires at_in_bounds { at < length index.old }
    ensures { index.new ≡ with_mark index.old at g }
{
    index[at] = with_bit(index[at], g);
}

// The lowest bit of a mask that has one.
pub fn lowest(m: u64) -> usize
    requires { m ≡ 0 → ⊥ }
    ensures { (result < 64) × LowestBit m result }
{
    m.trailing_zeros() as usize
}
