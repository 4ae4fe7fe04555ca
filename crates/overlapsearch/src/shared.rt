// How many letters two leading words share: the last letters of the first are the first letters of the second.

ghost use Rattle.std.specs.Prelude.{◌≡◌, ◌-◌, ◌≤◌, length};
ghost use Rattle.overlaps.specs.Overlaps.{shares};
ghost use Rattle.overlapsearch.specs.Position.{next_agreeing, shared_by};

use wordplaces::place::stands_at;
use wordplaces::two_letters::two_same;

// Whether the last n letters of u are the first n of v.
pub fn is_shared(u: &[u8], v: &[u8], n: usize) -> bool
    requires { (n ≤ length u.now) × (n ≤ length v.now) }
    ensures { result ≡ shares u.now v.now n }
{
    let at = u.len() - n;
    let stood = stands_at(&v[..n], u, at);
    stood.stands
}

// The least number k from n on where v's letters k - 2 and k - 1 are u's last two, or most. Where they are not, k letters are not shared.
fn next_agreeing(u: &[u8], v: &[u8], n: usize, most: usize) -> usize
    requires { (2 ≤ n) × (n ≤ most) × (most ≤ length u.now) × (most ≤ length v.now) }
    ensures { result ≡ next_agreeing u.now v.now n (most - n) }
{
    for k in n..most {
        if two_same(v, k - 2, u, u.len() - 2) {
            return k;
        }
    }
    most
}

// The least number of shared letters from s on, below both lengths. Numbers where the last two letters say that so many are not shared are
// passed over.
pub fn next_shared(u: &[u8], v: &[u8], s: usize) -> Option<usize>
    ensures { result ≡ shared_by u.now v.now s }
{
    let most = u.len().min(v.len());
    let mut n = s;
    while n < most {
        if is_shared(u, v, n) {
            return Some(n);
        }
        n = next_agreeing(u, v, n + 1, most);
    }
    None
}
