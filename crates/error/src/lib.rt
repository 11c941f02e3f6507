// Refusals: the grounds on which a call is refused, with their numbers (SCOPE 6.2) and in words.
#![tactic(auto)]

ghost use Rattle.std.specs.Prelude.{◌≡◌};
ghost use Rattle.error.specs.Refusals.{number_of, Numbered};

use std::error::Error;
use std::fmt;

// The largest input that a call accepts, in bytes: 2^30. A longer one is 23.
pub const LARGEST_INPUT: usize = 0x4000_0000;

// One variant for each ground, with its number in SCOPE 6.2.
#[derive(Clone, Copy, Debug, PartialEq, Eq, Hash)]
pub enum Refusal {
    // a field, a length or the bytes that it announces run past the end, or more entries are in use than a directory has (SCOPE 4.12)
    Truncated = 1,
    // the constraint length of a full record is 0
    ConstraintLengthZero = 2,
    // the prefix size of a full record is 3
    PrefixSizeThree = 3,
    // a prefix size outside 1 to 4
    PrefixSize = 4,
    // a unit of an item has length 0
    ZeroLengthUnit = 5,
    // a restored unit has 256^p bytes or more, for prefix size p
    UnitTooLongForPrefix = 6,
    // bytes follow the last unit of a compact record
    BytesLeftOver = 7,
    // fewer than 2 or more than 33 units for a compact record
    CompactUnitCount = 8,
    // a unit above 255 bytes for a compact record
    CompactUnitTooLong = 9,
    // the unit is not of the type that is read
    WrongUnitType = 10,
    // the bits of an RBSP run out
    BitsRunOut = 11,
    // an Exp-Golomb code has 32 zeros
    CodeTooLong = 12,
    // the SPS has subpicture information
    Subpictures = 13,
    // the bit depth minus 8 of the SPS is above 8
    BitDepth = 14,
    // the VPS has several layers
    SeveralLayers = 15,
    // the multi-layer flag is set and there is no VPS
    NoVps = 16,
    // there is no SPS
    NoSps = 17,
    // the SPS has no PTL and there is no VPS
    NoPtl = 18,
    // the access unit has no units
    NothingToWrite = 19,
    // the result is longer than the output
    BufferTooShort = 20,
    // the unit list is malformed (SCOPE 2)
    UnitList = 21,
    // a value does not fit its field (SCOPE 3.9 and 4.11), or the bit depth does not fit a byte (SCOPE 4.3)
    FieldTooWide = 22,
    // an input has more than 2^30 bytes
    InputTooLong = 23,
    // the item is not one plain still (SCOPE 4.1)
    NotOneStill = 24,
    // a reserved bit of a full record differs from what the writer writes (SCOPE 4.10)
    ReservedBit = 25,
    // an array of a full record has a type outside 12 to 17 and 23 (SCOPE 4.10)
    ArrayType = 26,
    // the first byte of an HEVC record is not 1 (SCOPE 4.11)
    ConfigurationVersion = 27,
    // a directory is shorter than the number of units (SCOPE 4.12)
    DirectoryTooShort = 28,
    // a length of a unit list, an array's or a unit's, is above 65,535 as narrowed (SCOPE 4.13)
    TooLongToNarrow = 29,
}

// The number of a refusal.
pub fn number(r: Refusal) -> u32
    ensures { result ≡ number_of r }
{
    // `as`: the number that the enum gives each ground; a derive for it is not to be had.
    r as u32
}

// The ground of a refusal in words.
impl fmt::Display for Refusal {
    fn fmt<W: fmt::Write>(&self, f: &mut fmt::Formatter<W>) -> fmt::Result {
        f.write_str(match self {
            Refusal::Truncated => "a field runs past the end",
            Refusal::ConstraintLengthZero => "the constraint length of a full record is 0",
            Refusal::PrefixSizeThree => "the prefix size of a full record is 3",
            Refusal::PrefixSize => "the prefix size is not 1 to 4",
            Refusal::ZeroLengthUnit => "a unit of the item has length 0",
            Refusal::UnitTooLongForPrefix => "a unit is too long for its length prefix",
            Refusal::BytesLeftOver => "bytes are left over after the compact record",
            Refusal::CompactUnitCount => "a compact record must have 2 to 33 units",
            Refusal::CompactUnitTooLong => "a unit of a compact record has more than 255 bytes",
            Refusal::WrongUnitType => "a unit has another type than the one to be read",
            Refusal::BitsRunOut => "the bits run out",
            Refusal::CodeTooLong => "an Exp-Golomb code has 32 zeros",
            Refusal::Subpictures => "the SPS has subpictures",
            Refusal::BitDepth => "the bit depth of the SPS minus 8 is above 8",
            Refusal::SeveralLayers => "the VPS has several layers",
            Refusal::NoVps => "the multi-layer flag is set and there is no VPS",
            Refusal::NoSps => "there is no SPS",
            Refusal::NoPtl => "the SPS has no PTL and there is no VPS",
            Refusal::NothingToWrite => "there is nothing to write",
            Refusal::BufferTooShort => "the result is longer than the buffer",
            Refusal::UnitList => "the unit list is malformed",
            Refusal::FieldTooWide => "a field is wider than its place",
            Refusal::InputTooLong => "the input is too long",
            Refusal::NotOneStill => "the item is not one plain still",
            Refusal::ReservedBit => "a reserved bit of a full record is not the standard's",
            Refusal::ArrayType => "an array of a full record has a type outside 12 to 17 and 23",
            Refusal::ConfigurationVersion => "the first byte of an HEVC record is not 1",
            Refusal::DirectoryTooShort => "a directory is shorter than the number of units",
            Refusal::TooLongToNarrow => "a length of the unit list is above 65,535 as narrowed",
        })
    }
}

impl Error for Refusal {}

// A number that no refusal has.
#[derive(Clone, Copy, Debug, PartialEq, Eq, Hash)]
pub struct UnknownNumber(pub u32);

impl TryFrom<u32> for Refusal {
    type Error = UnknownNumber;

    ghost try_from_gives = { Numbered };

    fn try_from(n: u32) -> Result<Self, UnknownNumber> {
        match n {
            1 => Ok(Refusal::Truncated),
            2 => Ok(Refusal::ConstraintLengthZero),
            3 => Ok(Refusal::PrefixSizeThree),
            4 => Ok(Refusal::PrefixSize),
            5 => Ok(Refusal::ZeroLengthUnit),
            6 => Ok(Refusal::UnitTooLongForPrefix),
            7 => Ok(Refusal::BytesLeftOver),
            8 => Ok(Refusal::CompactUnitCount),
            9 => Ok(Refusal::CompactUnitTooLong),
            10 => Ok(Refusal::WrongUnitType),
            11 => Ok(Refusal::BitsRunOut),
            12 => Ok(Refusal::CodeTooLong),
            13 => Ok(Refusal::Subpictures),
            14 => Ok(Refusal::BitDepth),
            15 => Ok(Refusal::SeveralLayers),
            16 => Ok(Refusal::NoVps),
            17 => Ok(Refusal::NoSps),
            18 => Ok(Refusal::NoPtl),
            19 => Ok(Refusal::NothingToWrite),
            20 => Ok(Refusal::BufferTooShort),
            21 => Ok(Refusal::UnitList),
            22 => Ok(Refusal::FieldTooWide),
            23 => Ok(Refusal::InputTooLong),
            24 => Ok(Refusal::NotOneStill),
            25 => Ok(Refusal::ReservedBit),
            26 => Ok(Refusal::ArrayType),
            27 => Ok(Refusal::ConfigurationVersion),
            28 => Ok(Refusal::DirectoryTooShort),
            29 => Ok(Refusal::TooLongToNarrow),
            _ => Err(UnknownNumber(n)),
        }
    }
}

impl fmt::Display for UnknownNumber {
    fn fmt<W: fmt::Write>(&self, f: &mut fmt::Formatter<W>) -> fmt::Result {
        write!(f, "no refusal has number {}", self.0)
    }
}

impl Error for UnknownNumber {}
