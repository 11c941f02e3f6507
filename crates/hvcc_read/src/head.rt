// Internal: the head of an HEVC record.
ghost use Rattle.std.specs.Prelude.{◌≡◌, ◌≤◌, ◌^◌, length};
ghost use Rattle.parse.specs.inner.Answers.{read_of};
ghost use Rattle.boxes.specs.Bytes.{be};
ghost use Rattle.hvcc.specs.Read.{hevc_head};
ghost use Rattle.hvcc.specs.inner.Fields.{head_fields};

use boxes::place;
use error::Refusal;
use hvcc::{HEAD_LEN, HevcConfig, LOW_FLAGS_END};

// general_constraint_indicator_flags: 48 bits, read as two numbers.
fn constraint_flags(s: &[u8]) -> u64
    requires { 12 ≤ length s.now }
    ensures { result ≡ be s.now 6 6 }
{
    // `as`: u64 has no From of a usize; nothing is lost.
    let high = place::number(s, 6, 2) as u64;
    let low = place::number(s, 8, 4) as u64;
    high * LOW_FLAGS_END + low
}

// The fields of a head whose bytes are all there.
fn head_fields(s: &[u8]) -> HevcConfig
    requires { 22 ≤ length s.now }
    ensures { result ≡ head_fields s.now }
{
    let profile = place::byte(s, 1);
    let compatibility = place::number(s, 2, 4);
    let constraints = constraint_flags(s);
    let level = place::byte(s, 12);
    let segmentation = place::number(s, 13, 2);
    let parallelism = place::byte(s, 15);
    let chroma = place::byte(s, 16);
    let luma = place::byte(s, 17);
    let depth = place::byte(s, 18);
    let rate = place::number(s, 19, 2);
    let layers = place::byte(s, 21);
    HevcConfig {
        general_profile_space: profile / 64,
        general_tier_flag: profile / 32 % 2 == 1,
        general_profile_idc: profile % 32,
        // `as`: a number of four bytes, so nothing is lost.
        general_profile_compatibility_flags: compatibility as u32,
        general_constraint_indicator_flags: constraints,
        general_level_idc: level,
        // `as`: twelve bits, so nothing is lost.
        min_spatial_segmentation_idc: (segmentation % 4096) as u16,
        parallelism_type: parallelism % 4,
        chroma_format_idc: chroma % 4,
        bit_depth_luma_minus8: luma % 8,
        bit_depth_chroma_minus8: depth % 8,
        // `as`: a number of two bytes, so nothing is lost.
        avg_frame_rate: rate as u16,
        constant_frame_rate: layers / 64,
        num_temporal_layers: layers / 8 % 8,
        temporal_id_nested: layers / 4 % 2 == 1,
        length_size: layers % 4 + 1,
    }
}

// Reads the head at the front of a record, and returns the place after it. Refusals: 1 for an empty record, 27 for a version other than 1,
// then 1.
pub fn read_head(s: &[u8]) -> Result<(HevcConfig, usize), Refusal>
    requires { length s.now ≤ 2 ^ 30 }
    ensures { read_of result ≡ hevc_head s.now 0 }
{
    if s.is_empty() {
        return Err(Refusal::Truncated);
    }
    if s[0] != 1 {
        return Err(Refusal::ConfigurationVersion);
    }
    if s.len() < HEAD_LEN {
        return Err(Refusal::Truncated);
    }
    let head = head_fields(s);
    Ok((head, HEAD_LEN))
}
