// One term added to the formula.

ghost use Rattle.std.specs.Prelude.{◌≡◌, ◌+◌, ◌≤◌, ◌<◌, get_or};
ghost use Rattle.algebra.specs.Written.{insert};
ghost use Rattle.working.specs.Change.{single};
ghost use Rattle.table.specs.Table.{prime_in, field_in, order_in};
ghost use Rattle.table.specs.Tabled.{Tabled};
ghost use Rattle.packedterms.specs.Change.{PutBefore, AddedOnto};
ghost use Rattle.packedterms.specs.Behind.{Behind};
ghost use Rattle.packedterms.specs.InFormula.{formula_in, HoldsIn, WorkingIn, letters_in, BuiltIn};

use crate::{PackedWord, WorkingFormula};
use field::arithmetic::add;
use table::Table;
use table::numbers::prime_in;

impl WorkingFormula {
    // Puts a term before term k: the coefficient x and the word, at the first free place.
    pub fn put_before(&mut self, k: usize, x: u32, word: &PackedWord<9>)
        requires { (k ≤ self.old.terms) × (self.old.terms < 560) × (word.now.size < 4294967296) × (get_or self.old.places self.old.terms 0 < 560) }
        ensures put { PutBefore self.old.coefs self.old.sizes self.old.blocks self.old.places self.old.terms k x word.now.blocks word.now.size
            self.new.coefs self.new.sizes self.new.blocks self.new.places }
        ensures terms { self.new.terms ≡ self.old.terms + 1 }
    {
        let n = self.terms;
        self.put_last(x, word);
        self.move_right(k, n);
    }

    // Adds x to the coefficient of term k, and drops the term where that gives 0.
    pub fn add_onto(&mut self, t: &Table, x: u32, k: usize)
        requires tabled { Tabled t.now × (x < prime_in t.now) × (get_or self.old.coefs (get_or self.old.places k 0) 0 < prime_in t.now) }
        requires term { (k < self.old.terms) × (self.old.terms ≤ 560) × (get_or self.old.places k 0 < 560) }
        ensures added { AddedOnto ((field_in t.now).add x (get_or self.old.coefs (get_or self.old.places k 0) 0))
            self.old.coefs self.old.places self.old.terms k self.new.coefs self.new.places self.new.terms }
        ensures words { (self.new.sizes ≡ self.old.sizes) × (self.new.blocks ≡ self.old.blocks) }
    {
        let s = usize::from(self.places[k]);
        let y = add(prime_in(t), x, self.coefs[s]);
        if y == 0 {
            self.drop_term(k);
        } else {
            self.coefs[s] = y;
        }
    }

    // Adds a term: the coefficient x and the word, which is below those of the first `from` terms. The answer is how many terms come before it.
    pub fn add_term(&mut self, t: &Table, x: u32, word: &PackedWord<9>, from: usize) -> usize
        requires tabled { Tabled t.now × (x < prime_in t.now) × (self.old.terms < 560) × BuiltIn t.now word.now }
        requires working { WorkingIn t.now self.old }
        requires behind { Behind (order_in t.now) (letters_in t.now word.now) from (formula_in t.now self.old) }
        ensures holds { (self.new.terms ≤ self.old.terms + 1) × HoldsIn t.now self.new }
        ensures inserted { formula_in t.now self.new
            ≡ insert (field_in t.now) (order_in t.now) (single x (letters_in t.now word.now)) (formula_in t.now self.old) }
        ensures behind_2 { Behind (order_in t.now) (letters_in t.now word.now) result (formula_in t.now self.new) }
    {
        match self.find(word, from) {
            Ok(at) => {
                self.add_onto(t, x, at);
                at
            }
            Err(at) => {
                if x != 0 {
                    self.put_before(at, x, word);
                }
                at
            }
        }
    }
}
