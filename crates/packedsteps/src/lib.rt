// Steps on the working formula with packed words: a word cut where a leading word stands, one step with the line that it takes away, and steps one
// after the other within a budget.
#![tactic(auto)]

pub mod advance;
pub mod cutting;
pub mod dividing;
pub mod run;
pub mod search;
pub mod step;

// Where a step applies: the term's number, the leftmost place of a leading word in its word, and the number, from 1, of the polynomial that it
// leads.
#[derive(Clone, Copy)]
pub struct Target {
    pub term: usize,
    pub place: usize,
    pub number: usize,
}

// One step of a run: where it was made, and the coefficient of the line that was taken away.
#[derive(Clone, Copy)]
pub struct Advanced {
    pub target: Target,
    pub coef: u32,
}

// Why a run ends without a short form: the step of this number leaves over 512 terms; or a step applies, and the budget is spent.
#[derive(Clone, Copy)]
pub enum Stop {
    Over { step: u32 },
    Spent,
}
