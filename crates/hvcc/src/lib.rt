// The HEVC record: its head, and the definitions of its bytes (SCOPE 4.11). Reading is in `hvcc_read`, writing in `hvcc_write`.

#![tactic(auto)]

// The head of an HEVC record: HEVCDecoderConfigurationRecord (ISO/IEC 14496-15 8.3.3.1) without its version, which is 1, and without its
// arrays, which are in a unit list.
#[derive(Clone, Copy, Debug, PartialEq, Eq)]
pub struct HevcConfig {
    pub general_profile_space: u8,
    pub general_tier_flag: bool,
    pub general_profile_idc: u8,
    pub general_profile_compatibility_flags: u32,
    pub general_constraint_indicator_flags: u64,
    pub general_level_idc: u8,
    pub min_spatial_segmentation_idc: u16,
    pub parallelism_type: u8,
    pub chroma_format_idc: u8,
    pub bit_depth_luma_minus8: u8,
    pub bit_depth_chroma_minus8: u8,
    pub avg_frame_rate: u16,
    pub constant_frame_rate: u8,
    pub num_temporal_layers: u8,
    pub temporal_id_nested: bool,
    pub length_size: u8,
}

// The length of a head: the place of num_of_arrays, the last byte before the arrays.
pub const HEAD_LEN: usize = 22;

// general_constraint_indicator_flags has 48 bits: it is below 2^48. It is read and written as two numbers, the lower of 32 bits.
pub const CONSTRAINT_FLAGS_END: u64 = 0x1_0000_0000_0000;

pub const LOW_FLAGS_END: u64 = 0x1_0000_0000;
