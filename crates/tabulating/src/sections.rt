// The sections that stand before the rows of the terms.

ghost use Rattle.std.specs.Prelude.{◌≡◌, ◌+◌, ◌-◌, ◌≤◌, length, get_or};
ghost use Rattle.tabulating.specs.Filled.{Filled};
ghost use Rattle.tabulating.specs.Plain.{Plain};
ghost use Rattle.tabulating.specs.Leading.{Leading, inverse_entry};
ghost use Rattle.tabulating.specs.Rows.{head_entry};

use field::arithmetic::inv;
use package::Head;
use table::Table;

// The head: the numbers of h, and that there are m terms.
pub fn put_head(t: &mut Table, h: Head, m: usize)
    requires { length t.old ≡ 3424 }
    ensures { Filled 0 6 (head_entry h m) t.old t.new }
{
    t[0] = u64::from(h.p);
    t[1] = u64::from(h.letters);
    t[2] = u64::from(h.gens);
    t[3] = 0;
    t[4] = u64::from(h.basis);
    t[5] = m as u64;
}

// The numbers x, x - 1, .. to the n entries from a on.
fn put_falling(t: &mut Table, a: usize, n: usize, x: usize)
    requires { (length t.old ≡ 3424) × (a + n ≤ 3424) × (n ≤ x) }
    ensures { Filled a n (λ k. x - k) t.old t.new }
{
    for k in 0..n {
        t[a + k] = (x - k) as u64;
    }
}

// The keys of the letters, and what stands at the codes: those of document 01's order. No entry outside of these two sections is changed.
pub fn put_keys(t: &mut Table)
    requires { length t.old ≡ 3424 }
    ensures plain { Plain t.new }
    ensures filled { Filled 16 64 (λ k. get_or t.new (16 + k) 0) t.old t.new }
{
    put_falling(t, 17, 26, 58);
    put_falling(t, 48, 32, 379);
}

// The inverses of the leading coefficients of n basis polynomials, which start from entry base of firsts on.
pub fn put_inverses(t: &mut Table, p: u32, coefs: &[u32], firsts: &[usize], base: usize, n: usize)
    requires t_len { (length t.old ≡ 3424) × (n ≤ 64) × (base + n ≤ length firsts.now) × (p ≤ 65536) }
    requires leading { Leading p coefs.now firsts.now base n }
    ensures { Filled 80 n (inverse_entry p coefs.now firsts.now base) t.old t.new }
{
    for g in 0..n {
        let a = firsts[base + g];
        t[80 + g] = u64::from(inv(p, coefs[a]));
    }
}

// Where the terms of the items before item n start.
pub fn put_firsts(t: &mut Table, firsts: &[usize], n: usize)
    requires { (length t.old ≡ 3424) × (n ≤ 130) × (n ≤ length firsts.now) }
    ensures { Filled 208 n (λ j. get_or firsts.now j 0) t.old t.new }
{
    for j in 0..n {
        t[208 + j] = firsts[j] as u64;
    }
}
