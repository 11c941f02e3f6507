// Internal: units measured and stored as arrays, one for each type, in the order in which the types first occur.
ghost use Rattle.std.specs.Prelude.{◌≡◌, ◌+◌, ◌≤◌, ◌<◌, ◌^◌, length};
ghost use Rattle.std.proofs.lemmas.List.Edits.{sets};
ghost use Rattle.unit_list.specs.UnitList.{encode_units, encode_array, encode_arrays, encode};
ghost use Rattle.grouping.specs.Grouping.{having_type, group, grouped};
ghost use Rattle.grouping.specs.inner.TypedUnits.{units_of};

use super::units::TypedUnits;
use boxes::{chunks, place};
use nal::UNIT_TYPES;
use unit_list::{ARRAY_HEAD, LIST_WIDTH, write};

// The bytes of the units of type t, each after its length.
fn group_len(units: TypedUnits<'_>, t: u8) -> usize
    ensures { (result ≡ length (encode_units 4 (having_type t (units_of units.entry)))) × (result ≤ 2 ^ 31) }
{
    let mut len: usize = 0;
    for (unit, found) in units {
        if found == t {
            len += LIST_WIDTH + unit.len;
        }
    }
    len
}

// The bytes of all arrays. An array is its length, complete, type and units; it is counted at the first unit of its type.
pub fn groups_len(units: TypedUnits<'_>) -> usize
    ensures { (result ≡ length (encode_arrays 4 (grouped (units_of units.entry)))) × (result < 2 ^ 62) }
{
    let mut seen = [false; UNIT_TYPES];
    let mut len: usize = 0;
    for (_, t) in units {
        let i = usize::from(t);
        if !seen[i] {
            seen[i] = true;
            len += ARRAY_HEAD + group_len(units, t);
        }
    }
    len
}

// Stores the units of type t from place `at` on and returns the place after them.
fn put_group_units(units: TypedUnits<'_>, t: u8, out: &mut [u8], at: usize) -> usize
    requires { at + length (encode_units 4 (having_type t (units_of units))) ≤ length out.old }
    ensures { (result ≡ at + length (encode_units 4 (having_type t (units_of units.entry))))
        × (out.new ≡ sets out.old at (encode_units 4 (having_type t (units_of units.entry)))) }
{
    let mut to = at;
    for (unit, found) in units {
        if found == t {
            chunks::put_unit(units.list, unit, out, to, LIST_WIDTH);
            to += LIST_WIDTH + unit.len;
        }
    }
    to
}

// Stores the array of type t, complete 1, from place `at` on and returns the place after it.
fn put_group(units: TypedUnits<'_>, t: u8, out: &mut [u8], at: usize) -> usize
    requires { at + length (encode_array 4 (group (units_of units) t)) ≤ length out.old }
    ensures { (result ≡ at + length (encode_array 4 (group (units_of units.entry) t)))
        × (out.new ≡ sets out.old at (encode_array 4 (group (units_of units.entry) t))) }
{
    let from = at + LIST_WIDTH;
    let to = put_group_units(units, t, out, at + ARRAY_HEAD);
    write::put_array_head(out, at, LIST_WIDTH, to - from, 1, t);
    to
}

// Stores the arrays from place `at` on, each when the walk meets the first unit of its type.
fn put_groups(units: TypedUnits<'_>, out: &mut [u8], at: usize)
    requires { at + length (encode_arrays 4 (grouped (units_of units))) ≤ length out.old }
    ensures { out.new ≡ sets out.old at (encode_arrays 4 (grouped (units_of units.entry))) }
{
    let mut stored = [false; UNIT_TYPES];
    let mut to = at;
    for (_, t) in units {
        let i = usize::from(t);
        if !stored[i] {
            stored[i] = true;
            to = put_group(units, t, out, to);
        }
    }
}

// Stores the unit list of the arrays at the front of the output: version 01, then the arrays.
pub fn put_list(units: TypedUnits<'_>, out: &mut [u8])
    requires { length (encode (grouped (units_of units))) ≤ length out.old }
    ensures { out.new ≡ sets out.old 0 (encode (grouped (units_of units.entry))) }
{
    place::put(out, 0, 1);
    put_groups(units, out, 1);
}
