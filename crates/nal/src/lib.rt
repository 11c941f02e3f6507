// A unit's header and the kinds of units (SCOPE 3.3).
#![tactic(auto)]

pub mod header;

ghost use Rattle.std.specs.Prelude.{◌≡◌};
ghost use Rattle.parse.specs.Answers.{answer_of};
ghost use Rattle.nal.specs.Header.{layer_id_of, unit_type_of, temporal_id_plus1_of, nal_header};
ghost use Rattle.nal.specs.Kinds.{unit_kind, is_picture_data, is_record};
ghost use Rattle.nal.specs.Answers.{header_part};

use error::{LARGEST_INPUT, Refusal};

// The unit types that the original names (H.266 table 5).
pub const NAL_IDR_W_RADL: u8 = 7;

pub const NAL_IDR_N_LP: u8 = 8;

pub const NAL_CRA: u8 = 9;

pub const NAL_GDR: u8 = 10;

pub const NAL_OPI: u8 = 12;

pub const NAL_DCI: u8 = 13;

pub const NAL_VPS: u8 = 14;

pub const NAL_SPS: u8 = 15;

pub const NAL_PPS: u8 = 16;

pub const NAL_PREFIX_APS: u8 = 17;

pub const NAL_SUFFIX_APS: u8 = 18;

pub const NAL_PH: u8 = 19;

pub const NAL_AUD: u8 = 20;

pub const NAL_EOS: u8 = 21;

pub const NAL_EOB: u8 = 22;

pub const NAL_PREFIX_SEI: u8 = 23;

pub const NAL_SUFFIX_SEI: u8 = 24;

// The largest unit type, of 5 bits, and how many types there are.
pub const LARGEST_UNIT_TYPE: u8 = 31;

pub const UNIT_TYPES: usize = 32;

// The kind of a unit; picture data and record kinds with their type.
#[derive(Clone, Copy, Debug, PartialEq, Eq)]
pub enum UnitKind {
    PictureData(u8),
    Record(u8),
    Aud,
    Other,
}

// The type of a unit: bits 7 to 3 of byte 1. Refusal: 23.
pub fn nal_unit_type(nal: &[u8]) -> Result<Option<u8>, Refusal>
    ensures { answer_of result ≡ header_part unit_type_of nal.now }
{
    if LARGEST_INPUT < nal.len() {
        return Err(Refusal::InputTooLong);
    }
    Ok(nal.get(1).map(|b| b / 8))
}

// The layer id of a unit: the low 6 bits of byte 0. Refusal: 23.
pub fn nal_layer_id(nal: &[u8]) -> Result<Option<u8>, Refusal>
    ensures { answer_of result ≡ header_part layer_id_of nal.now }
{
    if LARGEST_INPUT < nal.len() {
        return Err(Refusal::InputTooLong);
    }
    Ok(nal.get(0).map(|b| b % 64))
}

// The temporal id plus 1 of a unit: the low 3 bits of byte 1. Refusal: 23.
pub fn nal_temporal_id_plus1(nal: &[u8]) -> Result<Option<u8>, Refusal>
    ensures { answer_of result ≡ header_part temporal_id_plus1_of nal.now }
{
    if LARGEST_INPUT < nal.len() {
        return Err(Refusal::InputTooLong);
    }
    Ok(nal.get(1).map(|b| b % 8))
}

// The two bytes of a unit's header, each field cut to its width.
pub fn nal_header(nal_unit_type: u8, layer_id: u8, temporal_id_plus1: u8) -> [u8; 2]
    ensures { result ≡ nal_header nal_unit_type layer_id temporal_id_plus1 }
{
    let first = layer_id % 64;
    let second = nal_unit_type % 32 * 8 + temporal_id_plus1 % 8;
    [first, second]
}

// The kind of a unit type.
pub fn unit_kind(nal_unit_type: u8) -> UnitKind
    ensures { result ≡ unit_kind nal_unit_type }
{
    match nal_unit_type {
        0..=11 => UnitKind::PictureData(nal_unit_type),
        NAL_OPI..=NAL_PREFIX_APS | NAL_PREFIX_SEI => UnitKind::Record(nal_unit_type),
        NAL_AUD => UnitKind::Aud,
        _ => UnitKind::Other,
    }
}

// Whether a unit of this type is picture data.
pub fn is_vcl(nal_unit_type: u8) -> bool
    ensures { result ≡ is_picture_data (unit_kind nal_unit_type) }
{
    matches!(unit_kind(nal_unit_type), UnitKind::PictureData(_))
}

// Whether this type is a record kind: a record may have units of it.
pub fn is_record_nal_type(nal_unit_type: u8) -> bool
    ensures { result ≡ is_record (unit_kind nal_unit_type) }
{
    matches!(unit_kind(nal_unit_type), UnitKind::Record(_))
}
