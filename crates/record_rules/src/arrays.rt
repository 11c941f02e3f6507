// Internal: the reserved bits and the types in the bytes that the arrays of a record begin with.
ghost use Rattle.std.specs.Prelude.{◌≡◌, true, ◌≤◌, ◌^◌, length};
ghost use Rattle.parse.specs.Parse.{times, outcome};
ghost use Rattle.full.specs.Rules.{array_reserved, array_typed, array_byte};
ghost use Rattle.record_rules.specs.inner.Rules.{array_rules_of, tested};

use boxes::place;
use record_arrays::{Codec, array};
use record_arrays_read::room;

// Whether the reserved bits are 00 in an array's byte.
fn array_reserved(first: u8) -> bool
    ensures { result ≡ array_reserved first }
{
    first / 32 % 4 == 0
}

// Whether the type in an array's byte is one that a record may have.
fn array_typed(first: u8) -> bool
    ensures { result ≡ array_typed first }
{
    let unit_type = array::unit_type_of(Codec::Vvc, first);
    nal::is_record_nal_type(unit_type)
}

// Of the bytes that `count` arrays from place `from` on begin with: whether all have the standard's reserved bits, and whether all have types
// that a record may have; none where the record is too short.
pub fn array_rules(record: &[u8], from: usize, count: usize) -> Option<(bool, bool)>
    requires { (length «record».now ≤ 2 ^ 30) × (from ≤ length «record».now) }
    ensures { array_rules_of result ≡ tested true true (outcome (times count array_byte «record».now from)) }
{
    let mut at = from;
    let mut reserved = true;
    let mut typed = true;
    for _ in 0..count {
        let (_, ends) = room::array_room(Codec::Vvc, record, at)?;
        let first = place::byte(record, at);
        reserved &= array_reserved(first);
        typed &= array_typed(first);
        at = ends;
    }
    Some((reserved, typed))
}
