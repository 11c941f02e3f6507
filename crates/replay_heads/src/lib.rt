// The heads of records and parameter sets in `replay`: from the bytes of a case, and as text. Array entries past a count are set to the fill byte of
// the case, which no call may use.
#![tactic(auto)]

use boxes::place;
use compact::CompactVvcConfig;
use full::VvcConfig;
use ptl::{VvcPtlRecord, zeros};
use replay_text::{fields, text};
use sps::SpsHead;

// The configuration of a compact record: flag, prefix size.
pub fn compact_head(s: &[u8]) -> CompactVvcConfig {
    CompactVvcConfig {
        multi_layer_flag: fields::flag(s, 0),
        length_size: place::byte(s, 1),
    }
}

// The byte at a place, or the fill byte if `wanted` is false.
fn byte_or(s: &[u8], at: usize, wanted: bool, fill: u8) -> u8 {
    if wanted {
        return place::byte(s, at);
    }
    fill
}

// The number of four bytes at a place, or the fill byte if `wanted` is false.
fn four_or(s: &[u8], at: usize, wanted: bool, fill: u8) -> u32 {
    if wanted {
        return fields::four(s, at);
    }
    u32::from(fill)
}

// The constraint bytes, from a place on.
fn constraints(s: &[u8], at: usize, n: usize, fill: u8) -> [u8; 63] {
    let mut bytes = [0u8; 63];
    for i in 0..63 {
        bytes[i] = byte_or(s, text::plus(at, i), i < n, fill);
    }
    bytes
}

// The present flags of the levels, from a place on; a flag and a level are two bytes.
fn present(s: &[u8], at: usize, n: usize, fill: u8) -> [bool; 7] {
    let mut flags = [false; 7];
    for i in 0..7 {
        flags[i] = byte_or(s, text::plus(at, 2 * i), i < n, fill) != 0;
    }
    flags
}

// The levels, from a place on.
fn levels(s: &[u8], at: usize, n: usize, fill: u8) -> [u8; 7] {
    let mut bytes = [0u8; 7];
    for i in 0..7 {
        bytes[i] = byte_or(s, text::plus(at, 2 * i + 1), i < n, fill);
    }
    bytes
}

// The sub-profiles, from a place on, four bytes each.
fn sub_profiles(s: &[u8], at: usize, n: usize, fill: u8) -> [u32; 255] {
    let mut values = [0u32; 255];
    for i in 0..255 {
        values[i] = four_or(s, text::plus(at, 4 * i), i < n, fill);
    }
    values
}

// A PTL from place `at` on: five numbers, three counts of two bytes, then of each array as many entries as its count and its length allow.
fn ptl(s: &[u8], at: usize, fill: u8) -> VvcPtlRecord {
    let n = usize::from(fields::two(s, text::plus(at, 5)));
    let m = usize::from(fields::two(s, text::plus(at, 7)));
    let k = usize::from(fields::two(s, text::plus(at, 9)));
    let first = text::plus(at, 11);
    let second = text::plus(first, n.min(63));
    let third = text::plus(second, 2 * m.min(7));
    VvcPtlRecord {
        general_profile_idc: place::byte(s, at),
        general_tier_flag: fields::flag(s, text::plus(at, 1)),
        general_level_idc: place::byte(s, text::plus(at, 2)),
        ptl_frame_only_constraint_flag: fields::flag(s, text::plus(at, 3)),
        ptl_multilayer_enabled_flag: fields::flag(s, text::plus(at, 4)),
        num_bytes_constraint_info: n,
        general_constraint_info: constraints(s, first, n, fill),
        num_sublayer_levels: m,
        sublayer_level_present_flag: present(s, second, m, fill),
        sublayer_level_idc: levels(s, second, m, fill),
        num_sub_profiles: k,
        general_sub_profile_idc: sub_profiles(s, third, k, fill),
    }
}

// The head of a full record from place `at` on: fourteen bytes of numbers, then the PTL.
pub fn full_head(s: &[u8], at: usize, fill: u8) -> VvcConfig {
    VvcConfig {
        length_size: place::byte(s, at),
        ptl_present_flag: fields::flag(s, text::plus(at, 1)),
        ols_idx: fields::two(s, text::plus(at, 2)),
        num_sublayers: place::byte(s, text::plus(at, 4)),
        constant_frame_rate: place::byte(s, text::plus(at, 5)),
        chroma_format_idc: place::byte(s, text::plus(at, 6)),
        bit_depth_minus8: place::byte(s, text::plus(at, 7)),
        native_ptl: ptl(s, text::plus(at, 14), fill),
        max_picture_width: fields::two(s, text::plus(at, 8)),
        max_picture_height: fields::two(s, text::plus(at, 10)),
        avg_frame_rate: fields::two(s, text::plus(at, 12)),
    }
}

// An SPS head for the cropped size: chroma, width, height, window flag and offsets. The other fields are set from the fill byte.
pub fn window_head(s: &[u8], fill: u8) -> SpsHead {
    SpsHead {
        sps_id: fill,
        vps_id: fill,
        max_sublayers_minus1: fill,
        chroma_format_idc: place::byte(s, 0),
        log2_ctu_size: fill,
        ptl_present_flag: fill != 0,
        ptl: ptl(s, 26, fill),
        pic_width: fields::four(s, 1),
        pic_height: fields::four(s, 5),
        conformance_window_flag: fields::flag(s, 9),
        conf_win_left_offset: fields::four(s, 10),
        conf_win_right_offset: fields::four(s, 14),
        conf_win_top_offset: fields::four(s, 18),
        conf_win_bottom_offset: fields::four(s, 22),
        bit_depth: fill,
    }
}

// Puts a head, in the order of its fields.
pub fn put_full_head(out: &mut [u8], at: usize, h: VvcConfig) -> usize {
    let before = [
        u64::from(h.length_size),
        u64::from(h.ptl_present_flag),
        u64::from(h.ols_idx),
        u64::from(h.num_sublayers),
        u64::from(h.constant_frame_rate),
        u64::from(h.chroma_format_idc),
        u64::from(h.bit_depth_minus8),
    ];
    let after = [
        u64::from(h.max_picture_width),
        u64::from(h.max_picture_height),
        u64::from(h.avg_frame_rate),
    ];
    let first = text::put_numbers(out, at, &before);
    let second = replay_ptl::put_ptl(out, first, h.native_ptl);
    text::put_numbers(out, second, &after)
}

// Puts an SPS head, in the order of its fields.
pub fn put_sps_head(out: &mut [u8], at: usize, h: SpsHead) -> usize {
    let before = [
        u64::from(h.sps_id),
        u64::from(h.vps_id),
        u64::from(h.max_sublayers_minus1),
        u64::from(h.chroma_format_idc),
        u64::from(h.log2_ctu_size),
        u64::from(h.ptl_present_flag),
    ];
    let after = [
        u64::from(h.pic_width),
        u64::from(h.pic_height),
        u64::from(h.conformance_window_flag),
        u64::from(h.conf_win_left_offset),
        u64::from(h.conf_win_right_offset),
        u64::from(h.conf_win_top_offset),
        u64::from(h.conf_win_bottom_offset),
        u64::from(h.bit_depth),
    ];
    let first = text::put_numbers(out, at, &before);
    let second = replay_ptl::put_ptl(out, first, h.ptl);
    text::put_numbers(out, second, &after)
}

// Puts an SPS head of zeros.
pub fn put_no_sps(out: &mut [u8], at: usize) -> usize {
    let head = SpsHead {
        sps_id: 0,
        vps_id: 0,
        max_sublayers_minus1: 0,
        chroma_format_idc: 0,
        log2_ctu_size: 0,
        ptl_present_flag: false,
        ptl: zeros::zero_ptl(),
        pic_width: 0,
        pic_height: 0,
        conformance_window_flag: false,
        conf_win_left_offset: 0,
        conf_win_right_offset: 0,
        conf_win_top_offset: 0,
        conf_win_bottom_offset: 0,
        bit_depth: 0,
    };
    put_sps_head(out, at, head)
}
