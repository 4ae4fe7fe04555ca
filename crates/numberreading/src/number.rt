// Numbers: decimal, one to five digits, no leading zero except `0` itself.
// `inner_number` wants another field behind its own, `last_number` wants none.

ghost use Rattle.std.specs.Prelude.{◌≡◌, ℕ, ◌+◌, ◌≤◌, ◌<◌, length, get_or, drop};
ghost use Rattle.text.specs.Pieces.{fields};
ghost use Rattle.text.specs.Number.{digits, number};
ghost use Rattle.text.specs.Field.{num_then, num_last};
ghost use Rattle.text.specs.Answers.{seen_num, next_num};

use fieldreading::ending::ends_at;
use text::NumberAt;

// At most five digits, leading zeros too. The digit `0` is byte 48.
fn read_digits(f: &[u8]) -> Option<u32>
    requires { length f.now ≤ 5 }
    ensures { result ≡ digits 0 f.now }
{
    let mut n = 0;
    for &b in f {
        if !b.is_ascii_digit() {
            return None;
        }
        n = n * 10 + (u32::from(b) - 48);
    }
    Some(n)
}

// The number that a field says.
#[tactic(auto, unfolding(text::specs::Number::number))]
pub fn read_number(f: &[u8]) -> Option<u32>
    ensures { result ≡ number f.now }
{
    if f.is_empty() || 5 < f.len() {
        return None;
    }
    if f[0] == b'0' {
        return if f.len() == 1 { Some(0) } else { None };
    }
    read_digits(f)
}

// The digits of the field that starts at the place at, another field behind it: at most five, and the first of them is not `0`.
fn inner_digits(l: &[u8], at: usize) -> Option<NumberAt>
    requires at_in_bounds { at < length l.now }
    requires fact { get_or l.now at 0 ≡ 48 → ⊥ }
    ensures result_value { seen_num l.now result ≡ num_then number (fields (drop at l.now)) }
    ensures result_in_bounds { next_num result ≤ length l.now }
{
    let mut n = 0;
    for i in at..l.len() {
        let b = l[i];
        if b == b' ' {
            if i == at {
                return None;
            }
            return Some(NumberAt {
                value: n,
                next: i + 1,
            });
        }
        if !b.is_ascii_digit() {
            return None;
        }
        if 5 <= i - at {
            return None;
        }
        n = n * 10 + (u32::from(b) - 48);
    }
    None
}

// The number in the field that starts at the place at, another field behind it.
pub fn inner_number(l: &[u8], at: usize) -> Option<NumberAt>
    requires { at ≤ length l.now }
    ensures result_value { seen_num l.now result ≡ num_then number (fields (drop at l.now)) }
    ensures result_in_bounds { next_num result ≤ length l.now }
{
    if l.len() <= at {
        return None;
    }
    if l[at] != b'0' {
        return inner_digits(l, at);
    }
    if ends_at(l, at + 1, b' ') {
        return Some(NumberAt {
            value: 0,
            next: at + 2,
        });
    }
    None
}

// The number in the last field, which starts at the place at: bytes with a space among them say no number.
pub fn last_number(l: &[u8], at: usize) -> Option<u32>
    requires { at ≤ length l.now }
    ensures { result ≡ num_last (fields (drop at l.now)) }
{
    read_number(&l[at..])
}
