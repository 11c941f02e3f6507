// Internal: a PTL of zeros, which stands where there is none.
ghost use Rattle.std.specs.Prelude.{◌≡◌};
ghost use Rattle.ptl.specs.Ptl.{zero_ptl};

use super::VvcPtlRecord;

// A PTL of zeros.
pub fn zero_ptl() -> VvcPtlRecord
    ensures { result ≡ zero_ptl }
{
    VvcPtlRecord {
        general_profile_idc: 0,
        general_tier_flag: false,
        general_level_idc: 0,
        ptl_frame_only_constraint_flag: false,
        ptl_multilayer_enabled_flag: false,
        num_bytes_constraint_info: 0,
        general_constraint_info: [0u8; 63],
        num_sublayer_levels: 0,
        sublayer_level_present_flag: [false; 7],
        sublayer_level_idc: [0u8; 7],
        num_sub_profiles: 0,
        general_sub_profile_idc: [0u32; 255],
    }
}
