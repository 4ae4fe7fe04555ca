// Bounds of coefficients and words.

ghost use Rattle.std.specs.Prelude.{◌≡◌, ℕ, ◌≤◌};
ghost use Rattle.package.specs.Bounds.{coef_fits, word_fits_of};

use text::bytes::all_within;

// Whether a coefficient is 1 to p - 1.
#[tactic(auto, unfolding(package::specs::Bounds::coef_fits))]
pub fn coef_fits(p: u32, coef: u32) -> bool
    ensures { result ≡ coef_fits p coef }
{
    0 < coef && coef < p
}

// Whether a word has at most so many letters, all of them in use.
#[tactic(auto, unfolding(package::specs::Bounds::word_fits_of))]
pub fn word_fits(most: usize, letters: u32, w: &[u8]) -> bool
    requires { letters ≤ 26 }
    ensures { result ≡ word_fits_of most letters w.now }
{
    w.len() <= most && all_within(97, 96 + letters, w)
}
