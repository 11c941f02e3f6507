// Internal: what the program `still_main` reads, writes and says.
#![tactic(auto)]

pub mod files;
pub mod ground;
pub mod say;
