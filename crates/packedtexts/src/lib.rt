// The packed working formula and its text: a formula that was read brought into the arrays, and the formula in the arrays written as text.
#![tactic(auto)]

pub mod loading;
pub mod writing;
