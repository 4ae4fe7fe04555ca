// The check of a package that its table holds, behind refusal 8 (document 01, 'Facts of acceptance' and 'Numbers and places'): 10 to 15.
#![tactic(auto)]

pub mod check;
