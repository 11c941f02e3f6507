// Internal: reads profile_tier_level( 1, s ) (H.266 7.3.3.1) from the bits of a parameter set.
ghost use Rattle.std.specs.Prelude.{◌≡◌, ◌%◌, ◌≤◌, ◌^◌, length};
ghost use Rattle.bit_reader.specs.inner.Reader.{Reads};
ghost use Rattle.ptl.specs.Ptl.{profile_tier_level};
ghost use Rattle.ptl_bits.specs.inner.Sections.{general, ptl_of_sections};

use super::constraints::{Constraints, read_constraints};
use super::sub_profiles::{SubProfiles, read_sub_profiles};
use super::sublayers::{Sublayers, read_sublayers};
use bit_reader::reader::BitReader;
use error::Refusal;
use ptl::VvcPtlRecord;

// Profile, tier and level of the whole stream.
#[derive(Clone, Copy, Debug, PartialEq, Eq)]
pub struct General {
    pub general_profile_idc: u8,
    pub general_tier_flag: bool,
    pub general_level_idc: u8,
}

// Reads the profile (7 bits), the tier (1) and the level (8). Refusal: 11.
#[tactic(auto, unfolding(crate::specs::inner::Sections::general))]
fn read_general(br: &mut BitReader) -> Result<General, Refusal>
    requires { length br.old.src.now ≤ 2 ^ 20 }
    ensures { Reads general br.old br.new result }
{
    let profile = br.u(7)?;
    let tier = br.u(1)?;
    let level = br.u(8)?;
    Ok(General {
        // `as`: read from 7 bits and 8 bits, so nothing is lost.
        general_profile_idc: profile as u8,
        general_tier_flag: tier == 1,
        general_level_idc: level as u8,
    })
}

// The PTL that the four sections make up.
fn joined(m: usize, g: General, c: Constraints, l: Sublayers, s: SubProfiles) -> VvcPtlRecord
    ensures { result ≡ ptl_of_sections m g c l s }
{
    let info = c.general_constraint_info;
    let present = l.sublayer_level_present_flag;
    let levels = l.sublayer_level_idc;
    let sub_profiles = s.general_sub_profile_idc;
    VvcPtlRecord {
        general_profile_idc: g.general_profile_idc,
        general_tier_flag: g.general_tier_flag,
        general_level_idc: g.general_level_idc,
        ptl_frame_only_constraint_flag: c.ptl_frame_only_constraint_flag,
        ptl_multilayer_enabled_flag: c.ptl_multilayer_enabled_flag,
        num_bytes_constraint_info: c.num_bytes_constraint_info,
        general_constraint_info: info,
        num_sublayer_levels: m,
        sublayer_level_present_flag: present,
        sublayer_level_idc: levels,
        num_sub_profiles: s.num_sub_profiles,
        general_sub_profile_idc: sub_profiles,
    }
}

// Reads profile_tier_level( 1, max_sublayers_minus1 ) from a whole byte on. Refusal: 11.
#[tactic(auto, using(crate::proofs::Whole::sections))]
pub fn parse_ptl(br: &mut BitReader, max_sublayers_minus1: u8) -> Result<VvcPtlRecord, Refusal>
    requires { (length br.old.src.now ≤ 2 ^ 20) × (br.old.pos.0 % 8 ≡ 0) × (max_sublayers_minus1 ≤ 7) }
    ensures { Reads (profile_tier_level max_sublayers_minus1) br.old br.new result }
{
    let m = usize::from(max_sublayers_minus1);
    let general = read_general(br)?;
    let constraints = read_constraints(br)?;
    let sublayers = read_sublayers(br, m)?;
    let sub_profiles = read_sub_profiles(br)?;
    Ok(joined(m, general, constraints, sublayers, sub_profiles))
}
