// Start codes, and what splitting a stream needs of a unit (SCOPE 3.13): definitions and laws that the unit check and the split of a stream share.

#![tactic(auto)]

pub mod scan;
