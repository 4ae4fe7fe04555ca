// Where the terms of each item start: items are numbered G 1 to gens, then B 1 to basis.

ghost use Rattle.std.specs.Prelude.{◌≡◌, ◌+◌, ◌<◌, ◌≤◌, length, drop};
ghost use Rattle.package.specs.Items.{slot, first_of};
ghost use Rattle.package.specs.Held.{slots_held, StartsMarked};

use package::{Head, TERM_G};

// The number of an item among all items, counted from 1.
#[tactic(auto, unfolding(package::specs::Items::slot))]
fn slot_of(h: Head, kind: u8, item: u8) -> usize
    ensures { result ≡ slot h kind item }
{
    let number = usize::from(item);
    if u32::from(kind) == TERM_G {
        return number;
    }
    h.gens as usize + number
}

// The first term from the place at on that belongs to item number j or a later one, or n.
fn skip_terms(h: Head, kinds: &[u8], items: &[u8], n: usize, at: usize, j: usize) -> usize
    requires { (at ≤ n) × (n ≤ length kinds.now) × (n ≤ length items.now) }
    ensures value { result ≡ at + first_of j (drop at (slots_held h kinds.now items.now n)) }
    ensures upper_bound { result ≤ n }
{
    for i in at..n {
        if j <= slot_of(h, kinds[i], items[i]) {
            return i;
        }
    }
    n
}

// For each item number j up to the one after the last: how many terms stand before the first of item j.
pub fn mark_items(h: Head, kinds: &[u8], items: &[u8], n: usize, firsts: &mut [usize])
    requires gens_bound { (h.gens ≤ 32) × (h.basis ≤ 64) }
    requires n_in_bounds { (n ≤ length kinds.now) × (n ≤ length items.now) × (length firsts.old ≡ 98) }
    ensures { StartsMarked h kinds.now items.now n firsts.new }
{
    let end = h.gens as usize + h.basis as usize + 2;
    let mut m = 0;
    for j in 0..end {
        m = skip_terms(h, kinds, items, n, m, j);
        firsts[j] = m;
    }
}
