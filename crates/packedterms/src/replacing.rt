// One term in place of another.

ghost use Rattle.std.specs.Prelude.{◌≡◌, ◌+◌, ◌≤◌, ◌<◌};
ghost use Rattle.algebra.specs.Written.{insert};
ghost use Rattle.working.specs.Change.{single, without};
ghost use Rattle.table.specs.Table.{prime_in, field_in, order_in};
ghost use Rattle.table.specs.Tabled.{Tabled};
ghost use Rattle.packedterms.specs.Behind.{Behind};
ghost use Rattle.packedterms.specs.InFormula.{term_in, formula_in, HoldsIn, WorkingIn, letters_in, BuiltIn};

use crate::{PackedWord, WorkingFormula};
use table::Table;

impl WorkingFormula {
    // Takes term k away and adds a term whose word is below that of term k: the coefficient x and the word. Where no other term has that word, the new
    // term gets the place of term k, and only the entries between the two move. The answer is how many terms come before the new one's word.
    pub fn replace_term(&mut self, t: &Table, x: u32, word: &PackedWord<9>, k: usize) -> usize
        requires tabled { Tabled t.now × (x < prime_in t.now) × (k < self.old.terms) × BuiltIn t.now word.now }
        requires working { WorkingIn t.now self.old }
        requires behind { Behind (order_in t.now) (letters_in t.now word.now) (k + 1) (formula_in t.now self.old) }
        ensures holds { (self.new.terms ≤ self.old.terms) × HoldsIn t.now self.new }
        ensures replaced { formula_in t.now self.new
            ≡ insert (field_in t.now) (order_in t.now) (single x (letters_in t.now word.now))
            (without (term_in t.now self.old) self.old.terms k) }
        ensures behind_2 { Behind (order_in t.now) (letters_in t.now word.now) result (formula_in t.now self.new) }
    {
        match self.find(word, k + 1) {
            Ok(i) => {
                let at = i - 1;
                self.drop_term(k);
                self.add_onto(t, x, at);
                at
            }
            Err(i) => {
                let at = i - 1;
                if x == 0 {
                    self.drop_term(k);
                } else {
                    self.put_at(k, x, word);
                    self.move_left(k, at);
                }
                at
            }
        }
    }
}
