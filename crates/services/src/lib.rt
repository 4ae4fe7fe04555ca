// What the services answer, as C sees it (include/vaultgarlic.h). The definitions of the answers (specs/Services.antt), the demands on them
// (specs/Demands.antt), document 01's examples (specs/Examples.antt) and the theorems about all of these are in this crate; it has no functions.
#![tactic(auto)]

// What the check answers: the refusal's number and place, or 0 and 0, and how many overlaps and inclusions there are.
#[repr(C)]
#[derive(Clone, Copy)]
pub struct Checked {
    pub number: u64,
    pub place: u64,
    pub overlaps: u64,
}

// What listing answers: the refusal's number and place, or 0 and 0, how many overlaps and inclusions there are, and the bytes written.
#[repr(C)]
#[derive(Clone, Copy)]
pub struct Listed {
    pub number: u64,
    pub place: u64,
    pub overlaps: u64,
    pub written: u64,
}

// What the short form service answers: the refusal's number and place, or 0 and 0, the steps and the bytes written.
#[repr(C)]
#[derive(Clone, Copy)]
pub struct Shortened {
    pub number: u64,
    pub place: u64,
    pub steps: u64,
    pub written: u64,
}

// What membership answers: the refusal's number and place, or 0 and 0, the steps, and 1 for yes or 0 for no.
#[repr(C)]
#[derive(Clone, Copy)]
pub struct Membership {
    pub number: u64,
    pub place: u64,
    pub steps: u64,
    pub member: u64,
}
