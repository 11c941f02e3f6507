// Internal to full read and HEVC read: the arrays of a full record read into a unit list (SCOPE 3.10 and 4.11).
#![tactic(auto)]

pub mod arrays;
pub mod list;
pub mod room;

// What comes before the units of an array: complete, reserved bit, type, and the number of units.
#[derive(Clone, Copy, Debug, PartialEq, Eq)]
pub struct ArrayHead {
    pub complete: u8,
    pub reserved_bit: u8,
    pub unit_type: u8,
    pub count: usize,
}
