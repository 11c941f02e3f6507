// Reads the first PTL of a VPS (SCOPE 3.7).
#![tactic(auto)]

pub mod first_ptl;

ghost use Rattle.std.specs.Prelude.{◌≡◌};
ghost use Rattle.parse.specs.Answers.{answer_of};
ghost use Rattle.vps.specs.Vps.{vps_first_ptl};

use error::{LARGEST_INPUT, Refusal};
use nal::{NAL_VPS, header};
use ptl::VvcPtlRecord;

// Reads the first PTL of a VPS from its unit. Refusals: 23, 10, then in bit order 11, 15.
#[tactic(auto, using(params::proofs::Units::after_header), unfolding(crate::specs::Vps::vps_first_ptl))]
pub fn vps_first_ptl(nal: &[u8]) -> Result<VvcPtlRecord, Refusal>
    ensures { answer_of result ≡ vps_first_ptl nal.now }
{
    if LARGEST_INPUT < nal.len() {
        return Err(Refusal::InputTooLong);
    }
    if header::type_or_31(nal) != NAL_VPS {
        return Err(Refusal::WrongUnitType);
    }
    first_ptl::parse_payload(&nal[2..])
}
