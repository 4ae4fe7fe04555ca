// A formula's bytes brought to their short form under a package's bytes (document 01, 'Steps'): refusals 1 to 18, or the short form, which the
// working formula then is.
#![tactic(auto)]

pub mod reduce;
