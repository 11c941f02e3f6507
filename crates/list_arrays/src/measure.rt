// Internal: the arrays of a list measured as they are written.
ghost use Rattle.std.specs.Prelude.{◌≡◌, ◌+◌, ◌≤◌, ◌<◌, ◌^◌};
ghost use Rattle.parse.specs.Answers.{answer_of};
ghost use Rattle.unit_list.specs.inner.Walks.{left_in_array, arrays_left};
ghost use Rattle.list_arrays.specs.inner.Measures.{unit_width, joined, unit_measure, array_fits_by, record_array_by, list_array_by, array_by};
ghost use Rattle.list_arrays.specs.inner.Measures.{measured_by, units_measure, arrays_measure, UnitsWithin, ArraysWithin, ArrayMeasured};

use super::{Layout, LengthWidth};
use error::Refusal;
use record_arrays::{Codec, array};
use unit_list::ListWalk;

// Units or arrays as they are written: how many, the bytes that they take, and whether every value fits its field.
#[derive(Clone, Copy, Debug, PartialEq, Eq)]
pub struct Measure {
    pub count: usize,
    pub len: usize,
    pub fits: bool,
}

// The measure of nothing.
const NOTHING: Measure = Measure {
    count: 0,
    len: 0,
    fits: true,
};

// The sum of two measures.
fn add(a: Measure, b: Measure) -> Measure
    requires { (a.count + b.count < 2 ^ 32) × (a.len + b.len < 2 ^ 32) }
    ensures { result ≡ joined a b }
{
    Measure {
        count: a.count + b.count,
        len: a.len + b.len,
        fits: a.fits && b.fits,
    }
}

// How many bytes the length of a unit has.
pub fn unit_width(layout: Layout) -> LengthWidth
    ensures { result.bytes ≡ unit_width layout }
{
    match layout {
        Layout::Record(_) => LengthWidth { bytes: 2 },
        Layout::List(width) => width,
    }
}

// The measure of a unit of `len` bytes, with its length before it.
fn of_unit(len: usize, width: LengthWidth) -> Measure
    requires { len < 2 ^ 32 }
    ensures { result ≡ unit_measure width.bytes len }
{
    Measure {
        count: 1,
        len: width.bytes + len,
        fits: len <= 65535,
    }
}

// Whether an array with a complete byte and a type t fits, by the measure of its units.
fn array_fits(codec: Codec, complete: u8, t: u8, units: Measure) -> bool
    ensures { result ≡ array_fits_by codec complete t units }
{
    units.count <= 65535
        && units.fits
        && (!array::holds_one(codec, t) || units.count == 1)
        && array::first_fits(codec, complete / 2, t)
}

// The measure of an array of a record, with a complete byte and a type t, by that of its units.
fn of_record_array(codec: Codec, complete: u8, t: u8, units: Measure) -> Measure
    requires { units.len < 2 ^ 32 }
    ensures { result ≡ record_array_by codec complete t units }
{
    let len = 1 + array::count_len(codec, t) + units.len;
    let fits = array_fits(codec, complete, t, units);
    Measure {
        count: 1,
        len,
        fits,
    }
}

// The measure of an array of a list, by that of its units: its length, the complete byte, the type and the units.
fn of_list_array(width: LengthWidth, units: Measure) -> Measure
    requires { units.len < 2 ^ 32 }
    ensures { result ≡ list_array_by width.bytes units }
{
    let rest = 2 + units.len;
    let len = width.bytes + rest;
    let fits = rest <= 65535 && units.fits;
    Measure {
        count: 1,
        len,
        fits,
    }
}

// The measure of an array with a complete byte and a type t, by that of its units.
fn of_array(layout: Layout, complete: u8, t: u8, units: Measure) -> Measure
    requires { units.len < 2 ^ 32 }
    ensures { result ≡ array_by layout complete t units }
{
    match layout {
        Layout::Record(codec) => of_record_array(codec, complete, t, units),
        Layout::List(width) => of_list_array(width, units),
    }
}

// Measures the units that are left of the array that a walk is in, each with its length. Refusal: 21.
pub fn measure_units(walk: ListWalk, width: LengthWidth) -> Result<Measure, Refusal>
    ensures { (answer_of result ≡ measured_by (units_measure width.bytes walk.entry.list.now) (left_in_array walk.entry))
        × UnitsWithin walk.entry.cursor result }
{
    let mut walk = walk;
    let mut sum = NOTHING;
    // No `for`: a step can be refused, and `?` ends the loop there.
    while let Some(unit) = walk.next_in_array()? {
        sum = add(sum, of_unit(unit.len, width));
    }
    Ok(sum)
}

// Measures the next array, and goes on to it; none at the end of the list. Refusal: 21.
fn measure_array(layout: Layout, walk: &mut ListWalk) -> Result<Option<Measure>, Refusal>
    ensures same { walk.new.list ≡ walk.old.list }
    ensures measures { ArrayMeasured layout walk.old walk.new result }
{
    let Some(complete) = walk.next_array()? else {
        return Ok(None);
    };
    let units = measure_units(*walk, unit_width(layout))?;
    let array = of_array(layout, complete, walk.cursor.unit_type, units);
    Ok(Some(array))
}

// Measures the arrays that are left of a walk, after the one that it is in. Refusal: 21.
pub fn measure_arrays(layout: Layout, walk: ListWalk) -> Result<Measure, Refusal>
    ensures { (answer_of result ≡ measured_by (arrays_measure layout walk.entry.list.now) (arrays_left walk.entry))
        × ArraysWithin walk.entry.list.now result }
{
    let mut walk = walk;
    let mut sum = NOTHING;
    // No `for`: a step can be refused, and `?` ends the loop there.
    while let Some(array) = measure_array(layout, &mut walk)? {
        sum = add(sum, array);
    }
    Ok(sum)
}
