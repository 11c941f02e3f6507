// The calls on records and stills that `replay` makes, and the conversion of unit lists.
#![tactic(auto)]

pub mod access_calls;
pub mod compact_calls;
pub mod full_calls;
pub mod version_calls;
