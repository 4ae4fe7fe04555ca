// How many pairs the list of a basis has and how many bytes it has, without writing it.
#![tactic(auto)]

pub mod measuring;

// How many pairs there are, and how many bytes their list has.
#[derive(Clone, Copy)]
pub struct Measure {
    pub count: usize,
    pub bytes: usize,
}
