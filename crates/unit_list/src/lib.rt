// Internal to the calls that take or write a unit list (SCOPE 2): the walk over the units of a list, and the writing of one.
#![tactic(auto)]

ghost use Rattle.std.proofs.Props.{props};
ghost use Rattle.unit_list.specs.inner.Walk.{Fits, two_or_four-prop};

pub mod length;
pub mod walk;
pub mod write;

// The largest type that an array may have.
pub const LARGEST_TYPE: u8 = 63;

// How many bytes a length has in the lists that calls write.
pub const LIST_WIDTH: usize = 4;

// How many bytes come before the units of an array in those lists: its length, the complete byte and the type.
pub const ARRAY_HEAD: usize = 6;

// Where a walk over a list is: from place `at` on come the units that are left of the array that ends at `end` and has type `unit_type`; from
// `end` on come the next arrays. Lengths have `width` bytes.
#[derive(Clone, Copy, Debug, PartialEq, Eq)]
pub struct ListCursor {
    pub at: usize,
    pub end: usize,
    pub unit_type: u8,
    pub width: usize,
}

// A walk over a list: the list, and where the walk is in it, which is inside it.
#[derive(Clone, Copy, Debug, PartialEq, Eq)]
pub struct ListWalk<'a> {
    pub list: &'a [u8],
    pub cursor: ListCursor,
    pub ghost fits: { Fits list.now cursor } by { Prim.hlevel (two_or_four-prop, props) },
}
