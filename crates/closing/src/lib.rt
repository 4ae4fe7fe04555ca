// The terms of a polynomial, closed up: those whose coefficient is 0 are dropped.
#![tactic(auto)]

ghost use Rattle.std.specs.Prelude.{◌≡◌, ◌≤◌, length, take};
ghost use Rattle.closing.specs.Closing.{kept, closed};

// A term: its coefficient, and where its word starts in the bytes and how long it is.
#[derive(Clone, Copy)]
pub struct Term {
    pub coef: u32,
    pub start: usize,
    pub len: usize,
}

// Drops those of the first n terms whose coefficient is 0 and closes up the rest, in their order; the
// answer is how many are left. All entries behind them keep what they held.
pub fn close_up(terms: &mut [Term], n: usize) -> usize
    requires { n ≤ length terms.old }
    ensures value { result ≡ length (kept (take n terms.old)) }
    ensures terms_after { terms.new ≡ closed n terms.old }
{
    let mut j: usize = 0;
    for i in 0..n {
        let t = terms[i];
        let stays = t.coef != 0;
        if stays {
            terms[j] = t;
            j += 1;
        }
    }
    j
}
