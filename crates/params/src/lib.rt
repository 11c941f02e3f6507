// Internal: how much of an RBSP the reads of parameter sets need.
#![tactic(auto)]

// How many bytes of an RBSP suffice for every parameter set that is read here (SCOPE 3.7).
pub const RBSP_FRONT: usize = 1132;
