// A directory of the units of a list (SCOPE 4.12): one entry for each unit, and the number of units of each type. It is filled once
// (`directory_fill`), in memory that the caller lends, and answers what a walk over the list would find (`directory_ask`).
#![tactic(auto)]

// How many types there are, 0 to 63: the totals have one count for each.
pub const TYPES: usize = 64;

// One unit of a list: the type of its array, where its first byte lies in the list, its length. The layout is C's, so that a caller in C or
// Rust can lend a directory.
#[repr(C)]
#[derive(Clone, Copy, Debug, PartialEq, Eq)]
pub struct Entry {
    pub unit_type: u8,
    pub offset: usize,
    pub len: usize,
}

// Which unit is asked for: the first of a type, or number k, counted from 0.
#[derive(Clone, Copy, Debug, PartialEq, Eq)]
pub enum Asked {
    FirstOfType(u8),
    Number(usize),
}
