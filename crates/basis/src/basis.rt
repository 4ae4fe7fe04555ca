// Refusal 8 for a basis, and its leading words.

ghost use Rattle.std.specs.Prelude.{◌≡◌, ◌≤◌, length};
ghost use Rattle.working.specs.Family.{family_at};
ghost use Rattle.acceptance.specs.Check.{basis_judged};
ghost use Rattle.basis.specs.Lies.{BasisLies};
ghost use Rattle.basis.specs.Answer.{verdict_of, HeadsWhere};

use package::Refusal;

// 8 for all of count polynomials; where none is zero, heads and headlens lay their leading words, else they are scratch.
pub fn judge_basis(
    coefs: &[u32],
    starts: &[u32],
    lens: &[u8],
    bytes: &[u8],
    firsts: &[usize],
    base: usize,
    count: usize,
    heads: &mut [usize],
    headlens: &mut [usize],
) -> Result<(), Refusal>
    requires basis_lies { BasisLies coefs.now starts.now lens.now bytes.now firsts.now base count }
    requires count_in_bounds { (count ≤ length heads.old) × (count ≤ length headlens.old) }
    ensures result_value { verdict_of result ≡ basis_judged (family_at coefs.now starts.now lens.now bytes.now firsts.now base count) }
    ensures heads_where { HeadsWhere coefs.now starts.now lens.now bytes.now firsts.now base count heads.new headlens.new result }
{
    for g in 0..count {
        let a = firsts[base + g];
        let b = firsts[base + g + 1];
        if b <= a {
            return Err(Refusal {
                number: 8,
                place: g + 1,
            });
        }
        heads[g] = starts[a] as usize;
        headlens[g] = usize::from(lens[a]);
    }
    Ok(())
}
