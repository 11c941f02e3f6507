// Internal to compact read and to the arrays of full and HEVC read: units that a record counts, measured and stored as units of a list.
#![tactic(auto)]

pub mod units;

// The places where reading and storing continue: in the record and in the output.
#[derive(Clone, Copy, Debug, PartialEq, Eq)]
pub struct Stored {
    pub from: usize,
    pub to: usize,
}
