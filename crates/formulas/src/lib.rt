// The reader of formulas: the line of refusal 16, or the terms in lent slices.
#![tactic(auto)]

pub mod formula;
