// One block: moved by bits.

ghost use Rattle.std.specs.Prelude.{◌≡◌, ◌*◌, ◌/◌, ◌%◌, ◌^◌, ◌≤◌, ◌<◌};

// x moved up by t bits, without the bits that leave the 60 of a block.
pub fn up(x: u64, t: usize) -> u64
    requires { t ≤ 60 }
    ensures { (result ≡ x * 2 ^ t % 2 ^ 60) × (result < 2 ^ 60) }
{
    (x << t) % 1152921504606846976
}

// x moved down by s bits.
pub fn down(x: u64, s: usize) -> u64
    requires { (s ≤ 60) × (x < 2 ^ 60) }
    ensures { (result ≡ x / 2 ^ s) × (result < 2 ^ 60) }
{
    x >> s
}
