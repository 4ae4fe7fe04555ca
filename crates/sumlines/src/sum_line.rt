// The sum line that stands at a place of the bytes.

ghost use Rattle.std.specs.Prelude.{◌≡◌, List, ℕ, ◌≤◌, length, is_some, IfSome};
ghost use Rattle.package.specs.Held.{Numbers32};
ghost use Rattle.sumlines.specs.Lines.{sums_at, held_from, NumberedFrom, first_is, Inside};

use package::SumAt;
use sumreading::sum_lines::read_sum;

// The sum line from the place at on, if one stands there.
pub fn line_at(bytes: &[u8], at: usize) -> Option<SumAt>
    requires { at ≤ length bytes.now }
    ensures by_index { (n : ℕ) → NumberedFrom n (sums_at bytes.now at n) → held_from bytes.now n result ≡ sums_at bytes.now at n }
    ensures inside { IfSome result (λ s. Inside bytes.now at s) }
    ensures numbers { IfSome result Numbers32 }
{
    read_sum(bytes, at)
}

// The next line, if there is one and it is one of the item of the kind.
#[tactic(auto, unfolding(crate::specs::Lines::held_from, crate::specs::Lines::first_is))]
pub fn item_line(next: Option<SumAt>, kind: u32, item: usize) -> Option<SumAt>
    ensures same { IfSome result (λ s. next ≡ Some s) }
    ensures of_item { (bytes : List ℕ) (n : ℕ) → is_some result ≡ first_is kind item (held_from bytes n next) }
{
    next.filter(|s| s.kind == kind && s.item == item)
}
