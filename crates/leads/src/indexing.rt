// The index of the leading words of a table's basis, made once a call from zeros.

ghost use Rattle.std.specs.Prelude.{◌≡◌, ◌≤◌, ◌<◌, length};
ghost use Rattle.words.specs.Word.{Word};
ghost use Rattle.packedwords.specs.Packed.{unpacked};
ghost use Rattle.table.specs.Table.{blocks_in};
ghost use Rattle.table.specs.Tabled.{Tabled};
ghost use Rattle.leads.specs.CodeIndex.{index_size, CodeBlank, CodeIndexed, CodeRowsDone, PairsDone};
ghost use Rattle.leads.specs.LeadCodes.{lead_codes_in};

use crate::masks::mark;
use table::Table;
use table::numbers::{basis_in, code_in, first_in, gens_in, size_in};

// The mask of 32 bits that has a bit for every code.
const ALL_LETTERS: u64 = 4294967295;

// The first n letters of term i are marked in their rows as those of word g, and its end in the row behind the last.
fn mark_rows(t: &Table, i: usize, n: usize, g: usize, index: &mut [u64; 832])
    requires i_bound { (i < 1024) × (n ≤ 24) × (g < 64) }
    requires index_len { length index.old ≡ index_size }
    ensures index_len_2 { length index.new ≡ index_size }
    ensures code_rows_done { CodeRowsDone (unpacked n (blocks_in t.now i)) g index.old index.new }
{
    for k in 0..n {
        let x = code_in(t, i, k);
        mark(index, k * 32 + x, g);
    }
    mark(index, n * 32, g);
}

// All pairs are marked: a word of no letters may begin any word.
fn mark_all_pairs(index: &mut [u64; 832])
    requires { length index.old ≡ index_size }
    ensures { (b : Word) → PairsDone b index.old index.new }
{
    index[800..].fill(ALL_LETTERS);
}

// The pairs are marked that the first n letters of term i may open.
fn mark_pairs(t: &Table, i: usize, n: usize, index: &mut [u64; 832])
    requires i_bound { (i < 1024) × (n ≤ 24) }
    requires index_len { length index.old ≡ index_size }
    ensures { PairsDone (unpacked n (blocks_in t.now i)) index.old index.new }
{
    if n == 0 {
        mark_all_pairs(index);
        return;
    }
    let c = code_in(t, i, 0);
    if n == 1 {
        index[800 + c] = ALL_LETTERS;
        return;
    }
    let d = code_in(t, i, 1);
    mark(index, 800 + c, d);
}

// The index of the leading words of the table's basis.
pub fn index_leads(t: &Table, index: &mut [u64; 832])
    requires tabled { Tabled t.now }
    requires code_blank { CodeBlank index.old }
    ensures { CodeIndexed (lead_codes_in t.now) index.new }
{
    let n = basis_in(t);
    let base = gens_in(t) + 1;
    for g in 0..n {
        let i = first_in(t, base + g);
        let m = size_in(t, i) % 256;
        mark_pairs(t, i, m, index);
        mark_rows(t, i, m, g, index);
    }
}
