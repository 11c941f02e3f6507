// Internal to the calls that write arrays: the arrays of a unit list, measured and stored as those of a full record (SCOPE 3.9 and 4.11) or as those
// of a unit list of either version (SCOPE 2).
#![tactic(auto)]

pub mod measure;
pub mod put;

ghost use Rattle.std.specs.Prelude.{◌≤◌};

use record_arrays::Codec;

// How many bytes a length has: at most four.
#[derive(Clone, Copy, Debug, PartialEq, Eq)]
pub struct LengthWidth {
    pub bytes: usize,
    pub ghost small: { bytes ≤ 4 },
}

// How arrays are written: as those of a full record, or as those of a unit list whose lengths have so many bytes.
#[derive(Clone, Copy, Debug, PartialEq, Eq)]
pub enum Layout {
    Record(Codec),
    List(LengthWidth),
}
