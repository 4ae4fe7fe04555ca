// The rows of the terms.

ghost use Rattle.std.specs.Prelude.{◌≡◌, ◌+◌, ◌*◌, ◌≤◌, ◌<◌, length, get_or, take, drop};
ghost use Rattle.lists.specs.All.{All};
ghost use Rattle.words.specs.Word.{Letter};
ghost use Rattle.table.specs.Table.{key_in};
ghost use Rattle.table.specs.Words.{Keys};
ghost use Rattle.tabulating.specs.Filled.{Filled};
ghost use Rattle.tabulating.specs.Lies.{WordsLie};
ghost use Rattle.tabulating.specs.Rows.{row_of, row_entry};

use table::Table;
use wordpacking::pack::pack_word;

// A coefficient, and a size below it.
pub fn joined(c: u32, z: usize) -> u64
    requires { z < 4294967296 }
    ensures { result ≡ c * 4294967296 + z }
{
    u64::from(c) * 4294967296 + z as u64
}

// The row of term i: its coefficient is c, and its word is the n letters of text from `from` on.
pub fn put_row(t: &mut Table, i: usize, c: u32, text: &[u8], from: usize, n: usize)
    requires t_len { (length t.old ≡ 3424) × Keys t.old × (i < 1024) }
    requires n_in_bounds { (from + n ≤ length text.now) × (n ≤ 24) × All (Letter 26) (take n (drop from text.now)) }
    ensures { Filled (352 + 3 * i) 3 (λ k. get_or (row_of (key_in t.old) c (take n (drop from text.now))) k 0)
        t.old t.new }
{
    let mut w = [0u64; 6];
    let z = pack_word(t, text, from, n, &mut w);
    let x = joined(c, z);
    let r = 352 + 3 * i;
    t[r] = x;
    t[r + 1] = w[0];
    t[r + 2] = w[1];
}

// The rows of m terms that lie in slices.
pub fn put_rows(t: &mut Table, coefs: &[u32], starts: &[u32], lens: &[u8], bytes: &[u8], m: usize)
    requires t_len { (length t.old ≡ 3424) × Keys t.old × (m ≤ 1024) × (m ≤ length coefs.now) }
    requires words_lie { WordsLie starts.now lens.now bytes.now m }
    ensures { Filled 352 (3 * m) (row_entry (key_in t.old) coefs.now starts.now lens.now bytes.now)
        t.old t.new }
{
    for i in 0..m {
        put_row(t, i, coefs[i], bytes, starts[i] as usize, lens[i] as usize);
    }
}
