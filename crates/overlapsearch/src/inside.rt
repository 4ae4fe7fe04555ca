// Where a leading word stands inside another.

ghost use Rattle.std.specs.Prelude.{◌≡◌, suc, ◌≤◌, length};
ghost use Rattle.overlaps.specs.Overlaps.{places_in, placing};
ghost use Rattle.overlapsearch.specs.Position.{next_in};

use wordplaces::place::stands_at;

// How many places leading word j, of b letters, has in leading word i, of a letters; i and j count from 0.
#[tactic(auto, unfolding(overlaps::specs::Overlaps::places_in))]
fn places_in(a: usize, b: usize, i: usize, j: usize) -> usize
    requires { a ≤ 24 }
    ensures { result ≡ places_in a b (suc i) (suc j) }
{
    if i != j && (b < a || i < j) {
        return (a + 1).saturating_sub(b);
    }
    0
}

// The first place from s on where leading word j, v, stands in leading word i, u.
pub fn next_inside(u: &[u8], v: &[u8], i: usize, j: usize, s: usize) -> Option<usize>
    requires { length u.now ≤ 24 }
    ensures { result ≡ next_in placing u.now v.now (suc i) (suc j) s }
{
    let most = places_in(u.len(), v.len(), i, j);
    for n in s..most {
        let stood = stands_at(v, u, n);
        if stood.stands {
            return Some(n);
        }
    }
    None
}
