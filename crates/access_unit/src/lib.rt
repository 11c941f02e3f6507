// The access unit of a still: its definitions, its target, which units of the item are kept, the start code of each unit (SCOPE 3.12).
#![tactic(auto)]

pub mod kept;
pub mod lengths;

use boxes::Span;

// Where a unit of an access unit lies: in the list or in the item.
#[derive(Clone, Copy, Debug, PartialEq, Eq)]
pub enum Source {
    OfList(Span),
    OfItem(Span),
}

// The start codes of a stream: four bytes throughout; or short ones, four bytes for the first unit and for units whose header has a type of 12 to 18,
// three for the others (H.266 B.2.2).
#[derive(Clone, Copy, Debug, PartialEq, Eq)]
pub enum StartCodes {
    Four,
    Short,
}
