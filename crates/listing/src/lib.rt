// The listing service: a package's bytes read, refusal 8, and the list of its overlaps and inclusions in the output slice, or 19.
#![tactic(auto)]

pub mod list;
