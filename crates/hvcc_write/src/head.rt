// Internal: the head of an HEVC record tested and stored.
ghost use Rattle.std.specs.Prelude.{true, ◌≡◌, ◌≤◌, length};
ghost use Rattle.std.proofs.lemmas.List.Edits.{sets};
ghost use Rattle.boxes.specs.Bytes.{to_be};
ghost use Rattle.record_arrays_write.specs.inner.Record.{HeadIs, HeadShort};
ghost use Rattle.hvcc.specs.Write.{profile_byte, layers_byte, hevc_head_bytes, hevc_head_fits};
ghost use Rattle.hvcc_write.specs.inner.Parts.{head_written, profile_part, formats_part};

use boxes::place;
use error::Refusal;
use hvcc::{CONSTRAINT_FLAGS_END, HEAD_LEN, HevcConfig, LOW_FLAGS_END};

// The reserved bits before min_spatial_segmentation_idc: 1111 and 12 bits.
const SEGMENTATION_RESERVED: usize = 0xF000;

// Whether every value of a head fits its field.
#[tactic(auto, unfolding(hvcc::specs::Write::hevc_head_fits))]
pub fn head_fits(h: HevcConfig) -> bool
    ensures { result ≡ hevc_head_fits h }
{
    h.general_profile_space <= 3
        && h.general_profile_idc <= 31
        && h.general_constraint_indicator_flags < CONSTRAINT_FLAGS_END
        && h.min_spatial_segmentation_idc <= 4095
        && h.parallelism_type <= 3
        && h.chroma_format_idc <= 3
        && h.bit_depth_luma_minus8 <= 7
        && h.bit_depth_chroma_minus8 <= 7
        && h.constant_frame_rate <= 3
        && h.num_temporal_layers <= 7
        && !place::outside(h.length_size)
}

// The length of a head. Refusal: 22.
pub fn head_size(h: HevcConfig) -> Result<usize, Refusal>
    ensures { HeadIs (head_written h) result × HeadShort result }
{
    if !head_fits(h) {
        return Err(Refusal::FieldTooWide);
    }
    Ok(HEAD_LEN)
}

// general_profile_space 2, general_tier_flag 1, general_profile_idc 5.
#[tactic(auto, using(hvcc::proofs::HeadRoundTrip::small))]
fn profile_byte(h: HevcConfig) -> u8
    requires { hevc_head_fits h ≡ true }
    ensures { result ≡ profile_byte h }
{
    let tier = u8::from(h.general_tier_flag);
    h.general_profile_space * 64 + tier * 32 + h.general_profile_idc
}

// constant_frame_rate 2, num_temporal_layers 3, temporal_id_nested 1, length_size_minus_one 2.
#[tactic(auto, using(hvcc::proofs::HeadRoundTrip::small))]
fn layers_byte(h: HevcConfig) -> u8
    requires { hevc_head_fits h ≡ true }
    ensures { result ≡ layers_byte h }
{
    let nested = u8::from(h.temporal_id_nested);
    h.constant_frame_rate * 64 + h.num_temporal_layers * 8 + nested * 4 + (h.length_size - 1)
}

// Stores general_constraint_indicator_flags, 48 bits, as two numbers.
fn put_constraints(out: &mut [u8], v: u64)
    requires { 12 ≤ length out.old }
    ensures { out.new ≡ sets out.old 6 (to_be 6 v) }
{
    // `as`: usize has no From of a u64; below 2^32, so nothing is lost.
    let high = (v / LOW_FLAGS_END) as usize;
    let low = (v % LOW_FLAGS_END) as usize;
    place::put_number(out, 6, 2, high);
    place::put_number(out, 8, 4, low);
}

// Stores the version and the fields up to general_level_idc.
fn put_profile(out: &mut [u8], h: HevcConfig)
    requires { (hevc_head_fits h ≡ true) × (22 ≤ length out.old) }
    ensures { out.new ≡ sets out.old 0 (profile_part h) }
{
    // `as`: usize has no From of a u32; nothing is lost.
    let compatibility = h.general_profile_compatibility_flags as usize;
    let profile = profile_byte(h);
    place::put(out, 0, 1);
    place::put(out, 1, profile);
    place::put_number(out, 2, 4, compatibility);
    put_constraints(out, h.general_constraint_indicator_flags);
    place::put(out, 12, h.general_level_idc);
}

// Stores the fields from min_spatial_segmentation_idc to bit_depth_chroma_minus8, with the reserved bits before each.
#[tactic(auto, using(hvcc::proofs::HeadRoundTrip::small))]
fn put_formats(out: &mut [u8], h: HevcConfig)
    requires { (hevc_head_fits h ≡ true) × (22 ≤ length out.old) }
    ensures { out.new ≡ sets out.old 13 (formats_part h) }
{
    let segmentation = SEGMENTATION_RESERVED + usize::from(h.min_spatial_segmentation_idc);
    let parallelism = 252 + h.parallelism_type;
    let chroma = 252 + h.chroma_format_idc;
    let luma = 248 + h.bit_depth_luma_minus8;
    let depth = 248 + h.bit_depth_chroma_minus8;
    place::put_number(out, 13, 2, segmentation);
    place::put(out, 15, parallelism);
    place::put(out, 16, chroma);
    place::put(out, 17, luma);
    place::put(out, 18, depth);
}

// Stores a head at the front of the output.
pub fn put_head(out: &mut [u8], h: HevcConfig)
    requires { (hevc_head_fits h ≡ true) × (22 ≤ length out.old) }
    ensures { out.new ≡ sets out.old 0 (hevc_head_bytes h) }
{
    let rate = usize::from(h.avg_frame_rate);
    let layers = layers_byte(h);
    put_profile(out, h);
    put_formats(out, h);
    place::put_number(out, 19, 2, rate);
    place::put(out, 21, layers);
}
