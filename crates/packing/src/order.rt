// Two words of one length compared: at the first block that differs the greater number is the greater word's.

ghost use Rattle.std.specs.Prelude.{◌≡◌, ◌+◌, ◌≤◌, length, take, drop};
ghost use Rattle.words.specs.Order.{by_letters};
ghost use Rattle.packedwords.specs.Codes.{itself};

use std::cmp::Ordering;

// How the k blocks of u from block `at` on stand to the k blocks of v from block `bt` on.
#[tactic(auto, using(crate::proofs::PartOrder::blocks_cmp))]
pub fn compare(u: &[u64], at: usize, v: &[u64], bt: usize, k: usize) -> Ordering
    requires { (at + k ≤ length u.now) × (bt + k ≤ length v.now) }
    ensures { result ≡ by_letters itself (take k (drop at u.now)) (take k (drop bt v.now)) }
{
    u[at..at + k].cmp(&v[bt..bt + k])
}
