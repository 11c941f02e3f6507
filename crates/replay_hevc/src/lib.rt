// The calls on HEVC records that `replay` makes, and the heads of these records: from the numbers of a case, and as text.
#![tactic(auto)]

use boxes::place;
use error::Refusal;
use hvcc::HevcConfig;
use record_arrays::ParsedRecord;
use replay_text::{fields, shown, text};

// A head from the numbers of a case, in the order of its fields.
fn head(s: &[u8]) -> HevcConfig {
    HevcConfig {
        general_profile_space: place::byte(s, 0),
        general_tier_flag: fields::flag(s, 1),
        general_profile_idc: place::byte(s, 2),
        general_profile_compatibility_flags: fields::four(s, 3),
        general_constraint_indicator_flags: fields::eight(s, 7),
        general_level_idc: place::byte(s, 15),
        min_spatial_segmentation_idc: fields::two(s, 16),
        parallelism_type: place::byte(s, 18),
        chroma_format_idc: place::byte(s, 19),
        bit_depth_luma_minus8: place::byte(s, 20),
        bit_depth_chroma_minus8: place::byte(s, 21),
        avg_frame_rate: fields::two(s, 22),
        constant_frame_rate: place::byte(s, 24),
        num_temporal_layers: place::byte(s, 25),
        temporal_id_nested: fields::flag(s, 26),
        length_size: place::byte(s, 27),
    }
}

// Puts a head, in the order of its fields.
fn put_head(out: &mut [u8], at: usize, h: HevcConfig) -> usize {
    let numbers = [
        u64::from(h.general_profile_space),
        u64::from(h.general_tier_flag),
        u64::from(h.general_profile_idc),
        u64::from(h.general_profile_compatibility_flags),
        h.general_constraint_indicator_flags,
        u64::from(h.general_level_idc),
        u64::from(h.min_spatial_segmentation_idc),
        u64::from(h.parallelism_type),
        u64::from(h.chroma_format_idc),
        u64::from(h.bit_depth_luma_minus8),
        u64::from(h.bit_depth_chroma_minus8),
        u64::from(h.avg_frame_rate),
        u64::from(h.constant_frame_rate),
        u64::from(h.num_temporal_layers),
        u64::from(h.temporal_id_nested),
        u64::from(h.length_size),
    ];
    text::put_numbers(out, at, &numbers)
}

// `hvcc_read::parse`: the bytes consumed, the length of the list and the head; on a refusal a head of zeros.
fn put_read(out: &mut [u8], at: usize, r: Result<ParsedRecord<HevcConfig>, Refusal>) -> usize {
    match r {
        Ok(read) => {
            let next = shown::pair(out, at, read.consumed, read.list_length);
            put_head(out, next, read.head)
        }
        Err(e) => {
            let next = shown::refused(out, at, e);
            put_head(out, next, head(b""))
        }
    }
}

// The calls by their numbers, which are those of the format of a case (crates/replay/README.md).
pub fn answer(
    op: u8,
    numbers: &[u8],
    s: &[u8],
    lent: &mut [u8],
    out: &mut [u8],
    at: usize,
) -> usize {
    match op {
        51 => put_read(out, at, hvcc_read::parse(s, lent)),
        _ => shown::counted(out, at, hvcc_write::serialize(head(numbers), s, lent)),
    }
}
