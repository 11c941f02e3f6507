// Reads the head of an SPS: its fields up to the bit depth (SCOPE 3.7).
#![tactic(auto)]

pub mod sections;

ghost use Rattle.std.specs.Prelude.{◌≡◌};
ghost use Rattle.parse.specs.Answers.{answer_of};
ghost use Rattle.sps.specs.Sps.{parse_sps, parse_sps_rbsp};

use error::{LARGEST_INPUT, Refusal};
use nal::{NAL_SPS, header};
use params::RBSP_FRONT;
use ptl::VvcPtlRecord;

// An SPS up to its bit depth (H.266 7.3.2.4). Without the window flag the four offsets are 0, without a PTL the PTL is all zeros.
#[derive(Clone, Copy, Debug, PartialEq, Eq)]
pub struct SpsHead {
    pub sps_id: u8,
    pub vps_id: u8,
    pub max_sublayers_minus1: u8,
    pub chroma_format_idc: u8,
    pub log2_ctu_size: u8,
    pub ptl_present_flag: bool,
    pub ptl: VvcPtlRecord,
    pub pic_width: u32,
    pub pic_height: u32,
    pub conformance_window_flag: bool,
    pub conf_win_left_offset: u32,
    pub conf_win_right_offset: u32,
    pub conf_win_top_offset: u32,
    pub conf_win_bottom_offset: u32,
    pub bit_depth: u8,
}

impl SpsHead {
    // Reads the head of an SPS from its unit, the two-byte header included. Refusals: 23, 10, then in bit order 11, 12, 13, 14.
    #[tactic(auto, using(params::proofs::Units::after_header), unfolding(crate::specs::Sps::parse_sps))]
    pub fn parse_nal(nal: &[u8]) -> Result<SpsHead, Refusal>
        ensures { answer_of result ≡ parse_sps nal.now }
    {
        if LARGEST_INPUT < nal.len() {
            return Err(Refusal::InputTooLong);
        }
        if header::type_or_31(nal) != NAL_SPS {
            return Err(Refusal::WrongUnitType);
        }
        sections::parse_payload(&nal[2..])
    }

    // Reads the head of an SPS from its RBSP, of which the first 1,132 bytes suffice. Refusals: 23, then in bit order 11, 12, 13, 14.
    #[tactic(auto, using(crate::proofs::Look::sps_front), unfolding(crate::specs::Sps::parse_sps_rbsp))]
    pub fn parse_rbsp(rbsp: &[u8]) -> Result<SpsHead, Refusal>
        ensures { answer_of result ≡ parse_sps_rbsp rbsp.now }
    {
        if LARGEST_INPUT < rbsp.len() {
            return Err(Refusal::InputTooLong);
        }
        let n = RBSP_FRONT.min(rbsp.len());
        sections::parse_front(&rbsp[..n])
    }
}
