// A package from its bytes: its size, the head lines, the terms and the sums, one behind the other.

ghost use Rattle.std.specs.Prelude.{◌≡◌, ◌+◌, ◌≤◌, length};
ghost use Rattle.package.specs.Package.{read_package};
ghost use Rattle.package.specs.Held.{seen_all, count_all, WordsInside, gens_all, basis_all, spot_all, line_all, LineHeld, FirstsHeld};

use crate::head_lines::read_head_lines;
use package::{Limits, PackageAt, Refusal};
use sumreading::sum_lines::judge_sum_block;
use termreading::items::mark_items;
use termreading::term_lines::read_terms;

// A package: refusals 1 to 7 with number and place, or its counts, the number of its terms, and where its sum lines start.
// The terms are in kinds, items, coefs, starts and lens, and firsts says where those of each item start. Where the package is refused
// the six slices are scratch: nothing is promised of what they hold.
#[tactic(auto, using(package::proofs::Joining::package_long, package::proofs::Joining::package_head, package::proofs::Joining::package_terms, package::proofs::Joining::package_sums, package::proofs::Joining::package_read_lem, package::proofs::Joining::room_for), unfolding(package::specs::Held::seen_head_lines, package::specs::Held::HeadHeld, package::specs::Held::seen_terms, package::specs::Held::TermsHeld, package::specs::Held::seen_sums, package::specs::Held::seen_all, package::specs::Held::count_all, package::specs::Held::gens_all, package::specs::Held::basis_all, package::specs::Held::spot_all, package::specs::Held::line_all, package::specs::Held::LineHeld, package::specs::Held::FirstsHeld, package::specs::Package::read_package))]
pub fn read_package(
    s: &[u8],
    kinds: &mut [u8],
    items: &mut [u8],
    coefs: &mut [u32],
    starts: &mut [u32],
    lens: &mut [u8],
    firsts: &mut [usize],
) -> Result<PackageAt, Refusal>
    requires { (length kinds.old ≡ 1024) × (length items.old ≡ 1024) × (length coefs.old ≡ 1024) × (length starts.old ≡ 1024) × (length lens.old ≡ 1024) × (length firsts.old ≡ 98) }
    ensures result_after { seen_all s.now kinds.new items.new coefs.new starts.new lens.new result ≡ read_package s.now }
    ensures result_bound { (count_all result ≤ 1024) × WordsInside s.now starts.new lens.new (count_all result) }
    ensures result_bound_2 { (gens_all result ≤ 32) × (basis_all result ≤ 64) }
    ensures result_in_bounds { (spot_all result ≤ length s.now) × (line_all result ≤ spot_all result + 4) × LineHeld result }
    ensures firsts_held { FirstsHeld kinds.new items.new firsts.new result }
{
    if 65536 < s.len() {
        return Err(Refusal {
            number: 1,
            place: 0,
        });
    }
    let m = Limits { terms: 48, len: 24 };
    let above = read_head_lines(s)?;
    let h = above.head;
    let block = read_terms(
        h, m, s, above.at, above.line, kinds, items, coefs, starts, lens,
    )?;
    judge_sum_block(h, m, s, block.at, block.line)?;
    mark_items(h, kinds, items, block.terms, firsts);
    Ok(PackageAt {
        head: h,
        terms: block.terms,
        at: block.at,
        line: block.line,
    })
}
