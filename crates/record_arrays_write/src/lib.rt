// Internal to full write and HEVC write: what follows the head of a record, measured and written (SCOPE 3.9 and 4.11).
#![tactic(auto)]

pub mod record;
