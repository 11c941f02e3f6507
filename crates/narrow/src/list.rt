// Internal: a list measured and stored in a version.
ghost use Rattle.std.specs.Prelude.{◌≡◌};
ghost use Rattle.parse.specs.Answers.{answer_of};
ghost use Rattle.parse.specs.Outcome.{lent_output, counted};
ghost use Rattle.unit_list.specs.UnitList.{decode, in_version, length_width};
ghost use Rattle.unit_list.specs.inner.Walks.{arrays_left};
ghost use Rattle.narrow.specs.inner.Sizes.{Laid, SizeOf};

use boxes::place;
use error::Refusal;
use list_arrays::{Layout, LengthWidth, measure, put as arrays};
use unit_list::{ListWalk, walk};

// How many bytes a length has in a list of a version.
fn width_in(version: u8) -> LengthWidth
    ensures { result.bytes ≡ length_width version }
{
    LengthWidth {
        bytes: walk::length_width(version),
    }
}

// A list as it is written: the walk before its arrays, its length, and whether no length in it is above 65,535.
#[derive(Clone, Copy, Debug, PartialEq, Eq)]
pub struct ListLayout<'a> {
    pub arrays: ListWalk<'a>,
    pub len: usize,
    pub fits: bool,
}

// The layout in a version of the arrays that are left of a walk. Refusal: 21.
fn size_from<'a>(walk: ListWalk<'a>, version: u8) -> Result<ListLayout<'a>, Refusal>
    ensures { SizeOf walk.entry.list.now version (arrays_left walk.entry) result }
{
    let m = measure::measure_arrays(Layout::List(width_in(version)), walk)?;
    Ok(ListLayout {
        arrays: walk,
        len: 1 + m.len,
        fits: m.fits,
    })
}

// The layout of a list in a version. Refusals: 23, 21.
pub fn size<'a>(list: &'a [u8], version: u8) -> Result<ListLayout<'a>, Refusal>
    ensures { SizeOf list.now version (decode list.now) result }
{
    let walk = ListWalk::start(list)?;
    size_from(walk, version)
}

// Stores the list of a layout in a version. Refusal: 20.
pub fn put(version: u8, l: ListLayout, out: &mut [u8]) -> Result<usize, Refusal>
    requires { Laid l.arrays.list.now version (decode l.arrays.list.now) l }
    ensures { (answer_of result, out.new)
        ≡ lent_output (counted (in_version version l.entry.arrays.list.now)) out.old }
{
    if out.len() < l.len {
        return Err(Refusal::BufferTooShort);
    }
    place::put(out, 0, version);
    arrays::put_arrays(Layout::List(width_in(version)), l.arrays, out, 1);
    Ok(l.len)
}
