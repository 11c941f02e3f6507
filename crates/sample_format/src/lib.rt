// The chroma format and bit depth of a full record (SCOPE 4.3).
#![tactic(auto)]

ghost use Rattle.std.specs.Prelude.{◌≡◌};
ghost use Rattle.parse.specs.Answers.{answer_of};
ghost use Rattle.sample_format.specs.Format.{sample_format, head_format, sps_format_of};

use boxes::place;
use error::Refusal;
use full::VvcConfig;
use sps::SpsHead;

// The format of the samples: chroma format and bit depth.
#[derive(Clone, Copy, Debug, PartialEq, Eq)]
pub struct SampleFormat {
    pub chroma_format_idc: u8,
    pub bit_depth: u8,
}

// The format of an SPS. Refusals: those of the SPS.
#[tactic(auto, unfolding(crate::specs::Format::sps_format_of))]
fn sps_format(sps: &[u8]) -> Result<SampleFormat, Refusal>
    ensures { answer_of result ≡ sps_format_of sps.now }
{
    let head = SpsHead::parse_nal(sps)?;
    Ok(SampleFormat {
        chroma_format_idc: head.chroma_format_idc,
        bit_depth: head.bit_depth,
    })
}

// The format of the head. Refusal: 22.
#[tactic(auto, unfolding(crate::specs::Format::head_format))]
fn head_format(head: VvcConfig) -> Result<SampleFormat, Refusal>
    ensures { answer_of result ≡ head_format head }
{
    let bit_depth = head.bit_depth()?;
    Ok(SampleFormat {
        chroma_format_idc: head.chroma_format_idc,
        bit_depth,
    })
}

// The format of the head with the PTL flag, else that of the first unit in an array of type 15.
// Refusals: 23, 21; PTL flag set: 22; clear: 17, 10, then in bit order 11, 12, 13, 14.
pub fn sample_format(head: VvcConfig, list: &[u8]) -> Result<SampleFormat, Refusal>
    ensures { answer_of result ≡ sample_format head list.now }
{
    let sps = VvcConfig::sps_at(list)?;
    if head.ptl_present_flag {
        return head_format(head);
    }
    let Some(unit) = sps else {
        return Err(Refusal::NoSps);
    };
    sps_format(place::part(list, unit))
}
