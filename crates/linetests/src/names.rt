// The names lines: each must be these bytes and no others.

ghost use Rattle.std.specs.Prelude.{◌≡◌};
ghost use Rattle.lists.specs.Same.{same};
ghost use Rattle.package.specs.Names.{head_names, term_names, sum_names, formula_names};

use text::bytes::is_same;

// The names of blocks 1 to 3, and of a formula.
const HEAD_NAMES: &[u8] = b"p letters gens basis";

const TERM_NAMES: &[u8] = b"kind item coef word";

const SUM_NAMES: &[u8] = b"kind item coef left of right";

const FORMULA_NAMES: &[u8] = b"coef word";

// Whether a line is the names line of block 1.
pub fn is_head_names(l: &[u8]) -> bool
    ensures { result ≡ same l.now head_names }
{
    is_same(l, HEAD_NAMES)
}

// Whether a line is the names line of block 2.
pub fn is_term_names(l: &[u8]) -> bool
    ensures { result ≡ same l.now term_names }
{
    is_same(l, TERM_NAMES)
}

// Whether a line is the names line of block 3.
pub fn is_sum_names(l: &[u8]) -> bool
    ensures { result ≡ same l.now sum_names }
{
    is_same(l, SUM_NAMES)
}

// Whether a line is the names line of a formula.
pub fn is_formula_names(l: &[u8]) -> bool
    ensures { result ≡ same l.now formula_names }
{
    is_same(l, FORMULA_NAMES)
}
