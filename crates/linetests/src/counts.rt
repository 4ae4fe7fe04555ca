// The value line of block 1: its shape, then refusal 3 for p, then 4 for the other counts.

ghost use Rattle.std.specs.Prelude.{◌≡◌};
ghost use Rattle.text.specs.Pieces.{fields};
ghost use Rattle.package.specs.Head.{head_form, field_fits, counts_fit};
ghost use Rattle.package.specs.Held.{seen_head};

use field::prime::is_prime;
use numberreading::number::{inner_number, last_number};
use package::Head;
use text::bytes::is_within;

// The value line of block 1: four numbers.
#[tactic(auto, unfolding(package::specs::Held::seen_head, package::specs::Head::head_form, text::specs::Answers::seen_num, text::specs::Answers::next_num))]
pub fn read_head(l: &[u8]) -> Option<Head>
    ensures { seen_head result ≡ head_form (fields l.now) }
{
    let p = inner_number(l, 0)?;
    let letters = inner_number(l, p.next)?;
    let gens = inner_number(l, letters.next)?;
    let basis = last_number(l, gens.next)?;
    Some(Head {
        p: p.value,
        letters: letters.value,
        gens: gens.value,
        basis,
    })
}

// Whether p means a field: it is 256, or a prime in bounds.
#[tactic(auto, unfolding(package::specs::Head::field_fits))]
pub fn field_fits(p: u32) -> bool
    ensures { result ≡ field_fits p }
{
    p == 256 || p <= 65521 && is_prime(p)
}

// Whether the other counts are in bounds.
#[tactic(auto, unfolding(package::specs::Head::counts_fit))]
pub fn counts_fit(h: Head) -> bool
    ensures { result ≡ counts_fit h }
{
    is_within(1, 26, h.letters) && h.gens <= 32 && h.basis <= 64
}
