// Internal: the first byte of an array of a full record, and which arrays have no count.
ghost use Rattle.std.specs.Prelude.{◌≡◌, ◌+◌, ◌*◌, ◌/◌, ◌%◌, ◌≤◌};
ghost use Rattle.unit_list.specs.UnitList.{largest_type};
ghost use Rattle.record_arrays.specs.Read.{reserved_in, type_in, holds_one};
ghost use Rattle.record_arrays.specs.Write.{first_fits};
ghost use Rattle.record_arrays.specs.inner.Counts.{count_len};

use super::Codec;
use nal::{NAL_DCI, NAL_OPI};

// The largest type in VVC's 5 bits.
pub const LARGEST_VVC_TYPE: u8 = 31;

// Whether an array of the type has no count of units: VVC's arrays of types 12 (OPI) and 13 (DCI) have one unit.
pub fn holds_one(codec: Codec, unit_type: u8) -> bool
    ensures { result ≡ holds_one codec unit_type }
{
    match codec {
        Codec::Vvc => unit_type == NAL_OPI || unit_type == NAL_DCI,
        Codec::Hevc => false,
    }
}

// The bytes of num_nalus in an array of the type: 2, or 0 where there is no count.
pub fn count_len(codec: Codec, unit_type: u8) -> usize
    ensures { (result ≡ count_len codec unit_type) × (result ≤ 2) }
{
    if holds_one(codec, unit_type) { 0 } else { 2 }
}

// Whether the first byte of an array has places for a reserved bit and a type: VVC's has none for the bit and 5 bits for the type, HEVC's has one
// and 6, which is what a unit list has.
pub fn first_fits(codec: Codec, reserved_bit: u8, unit_type: u8) -> bool
    ensures { result ≡ first_fits codec reserved_bit unit_type }
{
    match codec {
        Codec::Vvc => reserved_bit == 0 && unit_type <= LARGEST_VVC_TYPE,
        Codec::Hevc => true,
    }
}

// The first byte of an array with a complete byte of a unit list: array_completeness 1, the reserved bit, NAL_unit_type 6.
pub fn array_byte(complete: u8, unit_type: u8) -> u8
    requires { (complete ≤ 3) × (unit_type ≤ largest_type) }
    ensures { result ≡ complete % 2 * 128 + complete / 2 * 64 + unit_type }
{
    complete % 2 * 128 + complete / 2 * 64 + unit_type
}

// The array_completeness in the first byte of an array.
pub fn complete_of(first: u8) -> u8
    ensures { (result ≡ first / 128) × (result ≤ 1) }
{
    first / 128
}

// The reserved bit in the first byte of an array, for a unit list: HEVC's is kept, VVC's two are not.
pub fn reserved_of(codec: Codec, first: u8) -> u8
    ensures { result ≡ reserved_in codec first }
{
    match codec {
        Codec::Vvc => 0,
        Codec::Hevc => first / 64 % 2,
    }
}

// The NAL_unit_type in the first byte of an array.
pub fn unit_type_of(codec: Codec, first: u8) -> u8
    ensures { result ≡ type_in codec first }
{
    match codec {
        Codec::Vvc => first % 32,
        Codec::Hevc => first % 64,
    }
}
