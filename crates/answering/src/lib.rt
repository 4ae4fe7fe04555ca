// The services check, short form and membership: the answer of accept or reduce, with the table and the working formula that they need, as the struct
// that C sees.
#![tactic(auto)]

pub mod check;
pub mod member;
pub mod short;
