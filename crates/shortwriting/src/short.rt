// The short form's bytes in the output slice, and the answer that goes with them.

ghost use Rattle.std.specs.Prelude.{◌≡◌, length};
ghost use Rattle.package.specs.Writing.{write_formula};
ghost use Rattle.acceptance.specs.Reduction.{short_form};
ghost use Rattle.packedterms.specs.InFormula.{formula_in, HoldsIn};
ghost use Rattle.services.specs.Services.{short_answer, fitted};

use packedterms::WorkingFormula;
use packedtexts::writing::{text_len, write_text};
use services::Shortened;
use table::Table;

// A refusal of the short form service: counts 0.
pub fn refusal(number: u64, place: u64) -> Shortened
    ensures { result ≡ record { number = number; place = place; steps = 0; written = 0 } }
{
    Shortened {
        number,
        place,
        steps: 0,
        written: 0,
    }
}

// The short form that the working formula holds, written to out; 19 where it does not fit.
pub fn write_short(t: &Table, f: &WorkingFormula, steps: u32, out: &mut [u8]) -> Shortened
    requires { HoldsIn t.now f.now }
    ensures value { result ≡ short_answer (length out.old) (short_form (formula_in t.now f.now) steps) }
    ensures out_after { out.new ≡ fitted (write_formula (formula_in t.now f.now)) out.old }
{
    let needed = text_len(f);
    if out.len() < needed {
        return refusal(19, needed as u64);
    }
    let written = write_text(t, f, out);
    Shortened {
        number: 0,
        place: 0,
        steps: u64::from(steps),
        written: written as u64,
    }
}
