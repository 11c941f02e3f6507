// The arrays of a full record: VVC's (SCOPE 3.9 and 3.10; ISO/IEC 14496-15:2024 11.2.4.2) and HEVC's (SCOPE 4.11; 8.3.3.1).
#![tactic(auto)]

pub mod array;

// Whose record it is. The two differ in the first byte of an array, and in whether every array has a count of units.
#[derive(Clone, Copy, Debug, PartialEq, Eq)]
pub enum Codec {
    Vvc,
    Hevc,
}

// A record that was read, with a head of type H: the head, how many bytes were consumed, and the length of the unit list in the output.
#[derive(Clone, Copy, Debug, PartialEq, Eq)]
pub struct ParsedRecord<H> {
    pub head: H,
    pub consumed: usize,
    pub list_length: usize,
}
