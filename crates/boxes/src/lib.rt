// Big-endian fields at a place of lent bytes (the original's `Reader`); spans of units in lent memory.
#![tactic(auto)]

pub mod chunks;
pub mod place;
pub mod reader;

ghost use Rattle.std.specs.Prelude.{◌≡◌};
ghost use Rattle.parse.specs.Answers.{answer_of};
ghost use Rattle.boxes.specs.Answers.{field_at};

use error::Refusal;

// Where bytes lie in a slice: `len` bytes from place `start` on.
#[derive(Clone, Copy, Debug, PartialEq, Eq)]
pub struct Span {
    pub start: usize,
    pub len: usize,
}

// The byte at a place, and the place after it. Refusals: 23, 1.
pub fn u8_at(s: &[u8], at: usize) -> Result<(u32, usize), Refusal>
    ensures { answer_of result ≡ field_at 1 s.now at }
{
    reader::uint_at(s, at, 1)
}

// The number of the two bytes at a place, and the place after them. Refusals: 23, 1.
pub fn u16_at(s: &[u8], at: usize) -> Result<(u32, usize), Refusal>
    ensures { answer_of result ≡ field_at 2 s.now at }
{
    reader::uint_at(s, at, 2)
}

// The number of the four bytes at a place, and the place after them. Refusals: 23, 1.
pub fn u32_at(s: &[u8], at: usize) -> Result<(u32, usize), Refusal>
    ensures { answer_of result ≡ field_at 4 s.now at }
{
    reader::uint_at(s, at, 4)
}
