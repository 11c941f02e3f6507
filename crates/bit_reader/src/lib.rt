// Internal: reads bits of an RBSP (SCOPE 3.5): at a position, or through a reader that keeps the position.
#![tactic(auto)]

pub mod bits;
pub mod reader;

// A count of bits from the highest bit of the first byte.
#[derive(Clone, Copy, Debug, PartialEq, Eq, PartialOrd, Ord)]
pub struct BitPosition(pub usize);

// The position of the first bit.
pub const FIRST_BIT: BitPosition = BitPosition(0);

// A count of bytes. It differs from a bit position, and the two are converted only at whole bytes.
#[derive(Clone, Copy, Debug, PartialEq, Eq, PartialOrd, Ord)]
pub struct ByteOffset(pub usize);
