// Sum lines: the words of a line, packed.

ghost use Rattle.text.specs.Pieces.{part};
ghost use Rattle.table.specs.Words.{Keys};
ghost use Rattle.tablesums.specs.Lines.{LineWords};
ghost use Rattle.tablesums.specs.ShortWords.{HoldsShort};

use package::SumAt;
use packedterms::PackedWord;
use table::Table;
use wordpacking::pack::pack_word;

// Packs the two words of a sum line that stands in the bytes.
pub fn pack_sides(
    t: &Table,
    bytes: &[u8],
    s: SumAt,
    left: &mut PackedWord<6>,
    right: &mut PackedWord<6>,
)
    requires { Keys t.now × LineWords bytes.now s }
    ensures short_word { HoldsShort t.now (part bytes.now s.left s.left_len) left.new }
    ensures short_word_2 { HoldsShort t.now (part bytes.now s.right s.right_len) right.new }
{
    left.size = pack_word(t, bytes, s.left, s.left_len, &mut left.blocks);
    right.size = pack_word(t, bytes, s.right, s.right_len, &mut right.blocks);
}
