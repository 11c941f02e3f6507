// The full record: its head, and the definitions of its bytes (SCOPE 3.9, 3.10 and 4.3).
#![tactic(auto)]

ghost use Rattle.std.specs.Prelude.{◌≡◌};
ghost use Rattle.parse.specs.Answers.{answer_of};
ghost use Rattle.boxes.specs.Parts.{PartOf};
ghost use Rattle.boxes.specs.Places.{PlaceFits};
ghost use Rattle.full.specs.Read.{plain_head};
ghost use Rattle.full.specs.Answers.{bit_depth_of, sps_span, sps_place};

use boxes::Span;
use error::Refusal;
use ptl::{VvcPtlRecord, zeros};

// The head of a full record: VvcDecoderConfigurationRecord (ISO/IEC 14496-15:2024 11.2.4) without its arrays, which are in a unit list.
// Without the PTL flag the fields under it are 0.
#[derive(Clone, Copy, Debug, PartialEq, Eq)]
pub struct VvcConfig {
    pub length_size: u8,
    pub ptl_present_flag: bool,
    pub ols_idx: u16,
    pub num_sublayers: u8,
    pub constant_frame_rate: u8,
    pub chroma_format_idc: u8,
    pub bit_depth_minus8: u8,
    pub native_ptl: VvcPtlRecord,
    pub max_picture_width: u16,
    pub max_picture_height: u16,
    pub avg_frame_rate: u16,
}

impl VvcConfig {
    // The bit depth of the head: bit_depth_minus8 plus 8. Refusal: 22.
    pub fn bit_depth(self) -> Result<u8, Refusal>
        ensures { answer_of result ≡ bit_depth_of self }
    {
        self.bit_depth_minus8
            .checked_add(8)
            .ok_or(Refusal::FieldTooWide)
    }

    // Where the first SPS of a record's unit list lies: the first unit in an array of type 15; none if there is no SPS. Refusals: 23, 21.
    pub fn sps_at(list: &[u8]) -> Result<Option<Span>, Refusal>
        ensures { (answer_of result ≡ sps_place list.now) × PlaceFits list.now result }
    {
        list_units::nal_unit_of_type_at(list, nal::NAL_SPS, 0)
    }

    // The first SPS of a record's unit list; the empty part if there is none and on a refusal. Refusals: 23, 21.
    pub fn sps(list: &[u8]) -> &[u8]
        ensures { PartOf result list.entry (sps_span list.now) }
    {
        list_units::nal_unit_of_type(list, nal::NAL_SPS, 0)
    }
}

// A head without the PTL flag: every other field is 0.
pub fn plain_head(length_size: u8) -> VvcConfig
    ensures { result ≡ plain_head length_size }
{
    let ptl = zeros::zero_ptl();
    VvcConfig {
        length_size,
        ptl_present_flag: false,
        ols_idx: 0,
        num_sublayers: 0,
        constant_frame_rate: 0,
        chroma_format_idc: 0,
        bit_depth_minus8: 0,
        native_ptl: ptl,
        max_picture_width: 0,
        max_picture_height: 0,
        avg_frame_rate: 0,
    }
}
