// Internal: the lengths of start codes.
ghost use Rattle.std.specs.Prelude.{◌≡◌, ◌≤◌, length};
ghost use Rattle.annex_b.specs.Stream.{code_bytes};
ghost use Rattle.annex_b.specs.RoundTrip.{one_if_three};
ghost use Rattle.access_unit.specs.AccessUnit.{code_of_type};
ghost use Rattle.access_unit.specs.declared.StartCodes.TheVariants.{Short};
ghost use Rattle.access_unit.specs.inner.Gathered.{later_code, saved};

use super::StartCodes;
use nal::{NAL_OPI, NAL_SUFFIX_APS, header};

// The lengths of start codes, 00 00 00 01 and 00 00 01.
pub const FOUR_BYTES: usize = 4;

pub const THREE_BYTES: usize = 3;

// By how many bytes short codes shorten the start code of a unit of a type that is not the first of the stream: none for types 12 to 18.
pub fn type_saves(nal_unit_type: u8) -> usize
    ensures { (result ≡ one_if_three (code_of_type Short nal_unit_type)) × (result ≤ 1) }
{
    match nal_unit_type {
        NAL_OPI..=NAL_SUFFIX_APS => 0,
        _ => 1,
    }
}

// By how many bytes short codes shorten the start code of a unit that is not the first of the stream.
pub fn saves(unit: &[u8]) -> usize
    ensures { (result ≡ saved unit.now) × (result ≤ 1) }
{
    type_saves(header::type_or_31(unit))
}

// The length of the start code of a unit of a type that is not the first of the stream.
pub fn type_code_len(codes: StartCodes, nal_unit_type: u8) -> usize
    ensures { (result ≡ length (code_bytes (code_of_type codes nal_unit_type))) × (result ≤ 4) }
{
    match codes {
        StartCodes::Four => FOUR_BYTES,
        StartCodes::Short => FOUR_BYTES - type_saves(nal_unit_type),
    }
}

// The length of the start code of a unit that is not the first of the stream; with four bytes throughout its header is not read.
pub fn code_len(codes: StartCodes, unit: &[u8]) -> usize
    ensures { (result ≡ length (code_bytes (later_code codes unit.now))) × (result ≤ 4) }
{
    match codes {
        StartCodes::Four => FOUR_BYTES,
        StartCodes::Short => FOUR_BYTES - saves(unit),
    }
}
