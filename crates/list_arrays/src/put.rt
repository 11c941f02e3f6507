// Internal: the arrays of a list stored as they are written.
ghost use Rattle.std.specs.Prelude.{◌≡◌, ◌+◌, ◌≤◌, length};
ghost use Rattle.std.proofs.lemmas.List.Edits.{sets};
ghost use Rattle.parse.specs.inner.Stores.{Puts, bytes_of};
ghost use Rattle.unit_list.specs.UnitList.{largest_type};
ghost use Rattle.unit_list.specs.inner.Walks.{left_in_array, arrays_left};
ghost use Rattle.unit_list.specs.inner.Written.{unit_bytes};
ghost use Rattle.list_arrays.specs.inner.Measures.{count_bytes, array_in_record, array_in_list, array_laid, arrays_laid};

use super::{Layout, LengthWidth, measure};
use boxes::{chunks, place};
use record_arrays::{Codec, array};
use unit_list::{ListWalk, write};

// Stores the units that are left of the array that a walk is in, each after its length, and returns the place after them.
fn put_units(walk: ListWalk, out: &mut [u8], to: usize, width: LengthWidth) -> usize
    requires { Puts (unit_bytes width.bytes walk.list.now) (left_in_array walk) out.old to }
    ensures { (result ≡ to + length (bytes_of (unit_bytes width.bytes walk.entry.list.now) (left_in_array walk.entry)))
        × (out.new ≡ sets out.old to (bytes_of (unit_bytes width.bytes walk.entry.list.now) (left_in_array walk.entry))) }
{
    let list = walk.list;
    let mut walk = walk;
    let mut at = to;
    // No `for`: the walk's type does not know that its units were measured.
    while let Ok(Some(unit)) = walk.next_in_array() {
        chunks::put_unit(list, unit, out, at, width.bytes);
        at = at + width.bytes + unit.len;
    }
    at
}

// Stores the count of the units that are left of an array, if the array has one, and returns the place after it.
fn put_count(codec: Codec, walk: ListWalk, out: &mut [u8], to: usize) -> usize
    requires { Puts (count_bytes codec walk.list.now walk.cursor.unit_type) (left_in_array walk) out.old to }
    ensures { (result ≡ to + length
        (bytes_of (count_bytes codec walk.entry.list.now walk.entry.cursor.unit_type) (left_in_array walk.entry)))
        × (out.new ≡ sets out.old to
        (bytes_of (count_bytes codec walk.entry.list.now walk.entry.cursor.unit_type) (left_in_array walk.entry))) }
{
    if array::holds_one(codec, walk.cursor.unit_type) {
        return to;
    }
    let Ok(units) = measure::measure_units(walk, LengthWidth { bytes: 2 }) else {
        return to;
    };
    place::put_number(out, to, 2, units.count);
    to + 2
}

// Stores an array of a record, with a complete byte and the units that are left of it, and returns the place after it.
fn put_record_array(codec: Codec, complete: u8, walk: ListWalk, out: &mut [u8], to: usize) -> usize
    requires { (complete ≤ 3) × (walk.cursor.unit_type ≤ largest_type)
        × Puts (array_in_record codec walk.list.now complete walk.cursor.unit_type) (left_in_array walk) out.old to }
    ensures { (result ≡ to + length
        (bytes_of (array_in_record codec walk.entry.list.now complete walk.entry.cursor.unit_type) (left_in_array walk.entry)))
        × (out.new ≡ sets out.old to
        (bytes_of (array_in_record codec walk.entry.list.now complete walk.entry.cursor.unit_type) (left_in_array walk.entry))) }
{
    let first = array::array_byte(complete, walk.cursor.unit_type);
    place::put(out, to, first);
    let units_at = put_count(codec, walk, out, to + 1);
    put_units(walk, out, units_at, LengthWidth { bytes: 2 })
}

// Stores an array of a list, with a complete byte and the units that are left of it, and returns the place after it. Its length
// is stored after the units, when it is known.
fn put_list_array(
    width: LengthWidth,
    complete: u8,
    walk: ListWalk,
    out: &mut [u8],
    to: usize,
) -> usize
    requires { Puts (array_in_list width.bytes walk.list.now complete walk.cursor.unit_type) (left_in_array walk) out.old to }
    ensures { (result ≡ to + length
        (bytes_of (array_in_list width.bytes walk.entry.list.now complete walk.entry.cursor.unit_type) (left_in_array walk.entry)))
        × (out.new ≡ sets out.old to
        (bytes_of (array_in_list width.bytes walk.entry.list.now complete walk.entry.cursor.unit_type) (left_in_array walk.entry))) }
{
    let from = to + width.bytes;
    let end = put_units(walk, out, from + 2, width);
    write::put_array_head(
        out,
        to,
        width.bytes,
        end - from,
        complete,
        walk.cursor.unit_type,
    );
    end
}

// Stores an array with a complete byte and the units that are left of it, and returns the place after it.
fn put_array(layout: Layout, complete: u8, walk: ListWalk, out: &mut [u8], to: usize) -> usize
    requires { (complete ≤ 3) × (walk.cursor.unit_type ≤ largest_type)
        × Puts (array_laid layout walk.list.now complete walk.cursor.unit_type) (left_in_array walk) out.old to }
    ensures { (result ≡ to + length
        (bytes_of (array_laid layout walk.entry.list.now complete walk.entry.cursor.unit_type) (left_in_array walk.entry)))
        × (out.new ≡ sets out.old to
        (bytes_of (array_laid layout walk.entry.list.now complete walk.entry.cursor.unit_type) (left_in_array walk.entry))) }
{
    match layout {
        Layout::Record(codec) => put_record_array(codec, complete, walk, out, to),
        Layout::List(width) => put_list_array(width, complete, walk, out, to),
    }
}

// Stores the arrays that are left of a walk, after the one that it is in.
pub fn put_arrays(layout: Layout, walk: ListWalk, out: &mut [u8], to: usize)
    requires { Puts (arrays_laid layout walk.list.now) (arrays_left walk) out.old to }
    ensures { out.new
        ≡ sets out.old to (bytes_of (arrays_laid layout walk.entry.list.now) (arrays_left walk.entry)) }
{
    let mut walk = walk;
    let mut next = to;
    // No `for`: the walk's type does not know that its units were measured.
    while let Ok(Some(complete)) = walk.next_array() {
        next = put_array(layout, complete, walk, out, next);
    }
}
