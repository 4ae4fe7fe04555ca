// A service with an output slice, tried: the first bytes of a slice are lent to it, and the bytes that it kept are counted.
#![tactic(auto)]

pub mod calls;
pub mod kept;
