// The table of a package that lies in slices.

ghost use Rattle.std.specs.Prelude.{◌≡◌, ◌+◌, length};
ghost use Rattle.working.specs.Family.{family_at};
ghost use Rattle.table.specs.Table.{prime_in, letters_in, gens_in, basis_count_in};
ghost use Rattle.table.specs.Polynomials.{relations_in, basis_in, NoneZero};
ghost use Rattle.table.specs.Tabled.{Tabled};
ghost use Rattle.tabulating.specs.Lies.{Lies};

use crate::rows::put_rows;
use crate::sections::{put_firsts, put_head, put_inverses, put_keys};
use package::Head;
use table::Table;

// Fills t with the package of head h and m terms that lies in the slices, where no basis polynomial is zero.
pub fn tabulate(
    t: &mut Table,
    h: Head,
    coefs: &[u32],
    starts: &[u32],
    lens: &[u8],
    bytes: &[u8],
    firsts: &[usize],
    m: usize,
)
    requires t_len { length t.old ≡ 3424 }
    requires lies { Lies h coefs.now starts.now lens.now bytes.now firsts.now m }
    requires none_zero { NoneZero (family_at coefs.now starts.now lens.now bytes.now firsts.now (h.gens + 1) h.basis) }
    ensures tabled { Tabled t.new }
    ensures t_after { (prime_in t.new ≡ h.p) × (letters_in t.new ≡ h.letters) }
    ensures t_after_2 { (gens_in t.new ≡ h.gens) × (basis_count_in t.new ≡ h.basis) }
    ensures t_after_3 { relations_in t.new
        ≡ family_at coefs.now starts.now lens.now bytes.now firsts.now 1 h.gens }
    ensures t_after_4 { basis_in t.new
        ≡ family_at coefs.now starts.now lens.now bytes.now firsts.now (h.gens + 1) h.basis }
{
    let gens = h.gens as usize;
    let basis = h.basis as usize;
    put_head(t, h, m);
    put_keys(t);
    put_inverses(t, h.p, coefs, firsts, gens + 1, basis);
    put_firsts(t, firsts, gens + basis + 2);
    put_rows(t, coefs, starts, lens, bytes, m);
}
