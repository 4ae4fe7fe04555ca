// The mathematics of noncommutative Gröbner bases, for any field and any admissible order of the words.
// This crate has definitions (specs/) and theorems (proofs/) and no function: docs/PROOFS.md lists them.
#![tactic(auto)]
