// Units grouped by type, for expansion (SCOPE 3.8): first units of a type, and the unit list of the groups.
#![tactic(auto)]

pub mod groups;
pub mod units;
