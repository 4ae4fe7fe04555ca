// Kinds: fields of one letter, which go by their rank in an order of the kinds.

ghost use Rattle.std.specs.Prelude.{◌≡◌, ℕ, ◌≤◌, length, drop};
ghost use Rattle.text.specs.Pieces.{fields};
ghost use Rattle.text.specs.Field.{rank_from, rank, num_then};
ghost use Rattle.text.specs.Answers.{seen_num, next_num};

use fieldreading::ending::ends_at;
use text::NumberAt;

// The rank of a byte among kinds of one letter each, counted from 1.
fn rank_of(kinds: &[u8], b: u8) -> Option<u32>
    requires { length kinds.now ≤ 26 }
    ensures { result ≡ rank_from 1 kinds.now b }
{
    let before = kinds.iter().position(|&k| k == b)?;
    Some(before as u32 + 1)
}

// The rank of the kind in the field that starts at the place at, another field behind it: one byte, and a space.
pub fn inner_rank(kinds: &[u8], l: &[u8], at: usize) -> Option<NumberAt>
    requires kinds_len_bound { length kinds.now ≤ 26 }
    requires at_in_bounds { at ≤ length l.now }
    ensures result_value { seen_num l.now result ≡ num_then (rank kinds.now) (fields (drop at l.now)) }
    ensures result_in_bounds { next_num result ≤ length l.now }
{
    if l.len() <= at {
        return None;
    }
    if l[at] == b' ' {
        return None;
    }
    if !ends_at(l, at + 1, b' ') {
        return None;
    }
    let value = rank_of(kinds, l[at])?;
    Some(NumberAt {
        value,
        next: at + 2,
    })
}
