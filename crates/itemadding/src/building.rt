// The word of a term of a multiple.

ghost use Rattle.std.specs.Prelude.{◌≡◌, ◌+◌, ◌%◌, ◌≤◌, ◌<◌};
ghost use Rattle.words.specs.Word.{around};
ghost use Rattle.table.specs.Polynomials.{word_in};
ghost use Rattle.table.specs.Table.{terms_in, size_in};
ghost use Rattle.table.specs.Tabled.{Tabled};
ghost use Rattle.packedterms.specs.InFormula.{letters_in, SixfoldIn, BuiltIn};

use packedterms::PackedWord;
use packing::product::compose;
use table::Table;
use table::numbers::{size_in, word_at};

// Makes left × word of term i × right. Its size is the sum of the three sizes, since letters and weights are added each for itself.
pub fn build(
    t: &Table,
    i: usize,
    left: &PackedWord<6>,
    right: &PackedWord<6>,
    product: &mut PackedWord<9>,
)
    requires tabled { Tabled t.now × (i < terms_in t.now) }
    requires sixfold { SixfoldIn t.now left.now × SixfoldIn t.now right.now × (left.now.size % 256 + size_in t.now i % 256 + right.now.size % 256 ≤ 72) }
    ensures built { BuiltIn t.now product.new }
    ensures word { letters_in t.now product.new
        ≡ around (letters_in t.now left.now) (letters_in t.now right.now) (word_in t.now i) }
{
    let z = size_in(t, i);
    compose(
        &mut product.blocks,
        &left.blocks,
        left.size % 256,
        t,
        word_at(i),
        z % 256,
        &right.blocks,
        right.size % 256,
    );
    product.size = left.size + z + right.size;
}
