// Two letters compared at once.

ghost use Rattle.std.specs.Prelude.{◌≡◌, ◌+◌, ◌<◌, length};
ghost use Rattle.wordplaces.specs.TwoLetters.{two_same};

// Whether the two letters of u from i on are those of v from j on: as one number each, they are read and compared at once.
pub fn two_same(u: &[u8], i: usize, v: &[u8], j: usize) -> bool
    requires { (i + 1 < length u.now) × (j + 1 < length v.now) }
    ensures { result ≡ two_same u.now i v.now j }
{
    u16::from_le_bytes([u[i], u[i + 1]]) == u16::from_le_bytes([v[j], v[j + 1]])
}
