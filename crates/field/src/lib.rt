// The coefficients: which numbers are primes, and the arithmetic of the field that a number means: GF(p)
// for a prime p, and GF(256) for 256. Words and polynomials are no matter of this crate.
#![tactic(auto)]

pub mod arithmetic;
mod byte_field;
mod byte_tables;
pub mod prime;
