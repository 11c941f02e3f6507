// Internal: the type and the kind of a unit whose length was tested before.
ghost use Rattle.std.specs.Prelude.{◌≡◌, ◌≤◌};
ghost use Rattle.nal.specs.Header.{largest_unit_type, type_or31};
ghost use Rattle.nal.specs.Kinds.{unit_kind, kind_of, is_record_of};
ghost use Rattle.nal.specs.inner.Kinds.{is_picture_data_of};

use super::{LARGEST_UNIT_TYPE, UnitKind, unit_kind};

// The type of a unit, 31 where byte 1 is absent.
pub fn type_or_31(nal: &[u8]) -> u8
    ensures { (result ≡ type_or31 nal.now) × (result ≤ largest_unit_type) }
{
    if nal.len() < 2 {
        return LARGEST_UNIT_TYPE;
    }
    nal[1] / 8
}

// The kind of a unit, by its type.
pub fn kind_of(nal: &[u8]) -> UnitKind
    ensures { result ≡ kind_of nal.now }
{
    unit_kind(type_or_31(nal))
}

// Whether a type is picture data and is `t`.
pub fn is_picture_data_of(nal_unit_type: u8, t: u8) -> bool
    ensures { result ≡ is_picture_data_of t (unit_kind nal_unit_type) }
{
    unit_kind(nal_unit_type) == UnitKind::PictureData(t)
}

// Whether a type is a record kind and is `t`.
pub fn is_record_of(nal_unit_type: u8, t: u8) -> bool
    ensures { result ≡ is_record_of t (unit_kind nal_unit_type) }
{
    unit_kind(nal_unit_type) == UnitKind::Record(t)
}
