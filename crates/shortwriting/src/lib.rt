// A short form that the working arrays hold, written to the output slice: the short form service's answer, or refusal 19.
#![tactic(auto)]

pub mod short;
