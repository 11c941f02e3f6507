// Profile, tier and level: `VvcPtlRecord`, its counts, and its definition in the bits of a parameter set (SCOPE 3.6).
#![tactic(auto)]

pub mod zeros;

ghost use Rattle.std.specs.Prelude.{◌≡◌};
ghost use Rattle.ptl.specs.Answers.{num_sublayers_of, num_bytes_constraint_info_of};

// VvcPTLRecord (ISO/IEC 14496-15 11.2.4.1) with the original's fields. Its vectors are arrays with counts: 0 past a count and for an absent
// level.
#[derive(Clone, Copy, Debug, PartialEq, Eq)]
pub struct VvcPtlRecord {
    pub general_profile_idc: u8,
    pub general_tier_flag: bool,
    pub general_level_idc: u8,
    pub ptl_frame_only_constraint_flag: bool,
    pub ptl_multilayer_enabled_flag: bool,
    // arrays with counts: no call allocates
    pub num_bytes_constraint_info: usize,
    pub general_constraint_info: [u8; 63],
    pub num_sublayer_levels: usize,
    pub sublayer_level_present_flag: [bool; 7],
    pub sublayer_level_idc: [u8; 7],
    pub num_sub_profiles: usize,
    pub general_sub_profile_idc: [u32; 255],
}

impl VvcPtlRecord {
    // The number of sublayers: the level count plus 1, at most 7.
    pub fn num_sublayers(self) -> u8
        ensures { result ≡ num_sublayers_of self }
    {
        // `as`: at most 6, so nothing is lost.
        self.num_sublayer_levels.min(6) as u8 + 1
    }

    // The number of constraint bytes that are written: 1 where there are none.
    pub fn num_bytes_constraint_info(self) -> usize
        ensures { result ≡ num_bytes_constraint_info_of self }
    {
        self.num_bytes_constraint_info.max(1)
    }
}
