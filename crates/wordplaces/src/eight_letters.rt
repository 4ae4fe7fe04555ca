// Eight letters compared at once.

ghost use Rattle.std.specs.Prelude.{◌≡◌, ◌+◌, ◌≤◌, ◌<◌, length, drop};
ghost use Rattle.words.specs.Place.{Stands};
ghost use Rattle.wordplaces.specs.EightLetters.{same_for, NumberAt};

// Eight letters of u from i on as one number.
fn eight_at(u: &[u8], i: usize) -> u64
    requires { i + 7 < length u.now }
    ensures { NumberAt u.now i 8 result }
{
    u64::from_le_bytes([
        u[i],
        u[i + 1],
        u[i + 2],
        u[i + 3],
        u[i + 4],
        u[i + 5],
        u[i + 6],
        u[i + 7],
    ])
}

// Whether the eight letters of u from i on are those of v from j on: as one number each, they are read and compared at once.
fn eight_same(u: &[u8], i: usize, v: &[u8], j: usize) -> bool
    requires { (i + 7 < length u.now) × (j + 7 < length v.now) }
    ensures { result ≡ same_for u.now i v.now j 8 }
{
    eight_at(u, i) == eight_at(v, j)
}

// How many letters of b are left when its last eight, the eight before them and so on stand in w as they would if b stood at the place: up
// to eight that do not, or until fewer than eight are left.
pub fn eights_left(b: &[u8], w: &[u8], at: usize) -> usize
    requires { at + length b.now ≤ length w.now }
    ensures { (result ≤ length b.now) × Stands (drop result b.now) w.now (at + result) }
{
    // A `while`, as the rest that the loop leaves is the answer.
    let mut n = b.len();
    while n > 7 {
        let k = n - 8;
        if !eight_same(b, k, w, at + k) {
            return n;
        }
        n = k;
    }
    n
}
