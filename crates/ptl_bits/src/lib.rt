// Reads a PTL from the bits of a parameter set (SCOPE 3.6).
#![tactic(auto)]

pub mod bits;
pub mod constraints;
pub mod sub_profiles;
pub mod sublayers;
