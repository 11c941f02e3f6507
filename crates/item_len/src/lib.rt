// Internal to item data and to one still: the length of restored item data (SCOPE 3.11).
#![tactic(auto)]

pub mod lengths;
