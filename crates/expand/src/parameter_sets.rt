// Internal: the PTL of the parameter sets of a list.
ghost use Rattle.std.specs.Prelude.{◌≡◌};
ghost use Rattle.error.specs.Refusals.{number_of};
ghost use Rattle.parse.specs.Answers.{answer_of};
ghost use Rattle.grouping.specs.inner.TypedUnits.{units_of};
ghost use Rattle.expand.specs.Expand.{multi_layer_vps, ptl_of_sets};
ghost use Rattle.expand.specs.inner.ParameterSets.{first_vps_ptl, first_sps_ptl, sets_ptl};

use error::Refusal;
use grouping::units::TypedUnits;
use nal::{NAL_SPS, NAL_VPS};
use ptl::VvcPtlRecord;
use sps::SpsHead;

// The PTL of the first VPS. Refusals: `missing` if there is no VPS, and the VPS's.
fn vps_ptl(units: TypedUnits<'_>, missing: Refusal) -> Result<VvcPtlRecord, Refusal>
    ensures { answer_of result ≡ first_vps_ptl (number_of missing) (units_of units.entry) }
{
    let unit = units.first_having(NAL_VPS).ok_or(missing)?;
    vps::vps_first_ptl(unit)
}

// With the flag set, reads the first VPS. Refusals: 16, the VPS's.
#[tactic(auto, unfolding(crate::specs::Expand::multi_layer_vps))]
fn multi_layer_vps(multi_layer_flag: bool, units: TypedUnits<'_>) -> Result<(), Refusal>
    ensures { answer_of result ≡ multi_layer_vps multi_layer_flag (units_of units.entry) }
{
    if multi_layer_flag {
        vps_ptl(units, Refusal::NoVps)?;
    }
    Ok(())
}

// The PTL of an SPS; if it has none, that of the first VPS. Refusals: 18, the VPS's.
#[tactic(auto, unfolding(crate::specs::Expand::ptl_of_sets))]
fn ptl_of_sets(sps: SpsHead, units: TypedUnits<'_>) -> Result<VvcPtlRecord, Refusal>
    ensures { answer_of result ≡ ptl_of_sets sps (units_of units.entry) }
{
    if sps.ptl_present_flag {
        return Ok(sps.ptl);
    }
    vps_ptl(units, Refusal::NoPtl)
}

// The PTL of the first SPS; if it has none, that of the first VPS. Refusals: 17, the SPS's, 18, the VPS's.
fn sps_ptl(units: TypedUnits<'_>) -> Result<VvcPtlRecord, Refusal>
    ensures { answer_of result ≡ first_sps_ptl (units_of units.entry) }
{
    let unit = units.first_having(NAL_SPS).ok_or(Refusal::NoSps)?;
    let sps = SpsHead::parse_nal(unit)?;
    ptl_of_sets(sps, units)
}

// The PTL of the parameter sets. Refusals: with the flag set 16 and the VPS's; 17, the SPS's, 18, the VPS's.
pub fn sets_ptl(multi_layer_flag: bool, units: TypedUnits<'_>) -> Result<VvcPtlRecord, Refusal>
    ensures { answer_of result ≡ sets_ptl multi_layer_flag (units_of units.entry) }
{
    multi_layer_vps(multi_layer_flag, units)?;
    sps_ptl(units)
}
