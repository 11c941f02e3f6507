// A PTL in the answers of `replay`, as text. An array is shown up to its count; later entries are shown if they are not 0.
#![tactic(auto)]

use ptl::VvcPtlRecord;
use replay_text::text;

// Puts a byte of an array if it is wanted or is not 0.
fn byte_if(out: &mut [u8], at: usize, wanted: bool, b: u8) -> usize {
    if wanted || b != 0 {
        return text::put_byte(out, at, b);
    }
    at
}

// Puts a level, as its flag and its byte, if it is wanted, present or not 0.
fn level_if(out: &mut [u8], at: usize, wanted: bool, present: bool, b: u8) -> usize {
    let first = byte_if(out, at, wanted || b != 0, u8::from(present));
    byte_if(out, first, wanted || present, b)
}

// Puts a sub-profile, as four bytes, if it is wanted or is not 0.
fn sub_profile_if(out: &mut [u8], at: usize, wanted: bool, v: u32) -> usize {
    if !wanted && v == 0 {
        return at;
    }
    text::put_digits(out, at, &v.to_be_bytes())
}

// Puts the constraint bytes up to a count, and every later byte that is not 0.
fn constraints(out: &mut [u8], at: usize, n: usize, bytes: &[u8; 63]) -> usize {
    let mut end = text::put_all(out, at, b" =");
    for i in 0..63 {
        end = byte_if(out, end, i < n, bytes[i]);
    }
    end
}

// Puts the levels up to a count, and every later one that is present or not 0.
fn levels(out: &mut [u8], at: usize, n: usize, present: &[bool; 7], bytes: &[u8; 7]) -> usize {
    let mut end = text::put_all(out, at, b" =");
    for i in 0..7 {
        end = level_if(out, end, i < n, present[i], bytes[i]);
    }
    end
}

// Puts the sub-profiles up to a count, and every later one that is not 0. One function for these loops would take a closure with a contract that is longer.
fn sub_profiles(out: &mut [u8], at: usize, n: usize, values: &[u32; 255]) -> usize {
    let mut end = text::put_all(out, at, b" =");
    for i in 0..255 {
        end = sub_profile_if(out, end, i < n, values[i]);
    }
    end
}

// Puts the numbers of a PTL that come before its arrays.
fn ptl_numbers(out: &mut [u8], at: usize, p: VvcPtlRecord) -> usize {
    let numbers = [
        u64::from(p.general_profile_idc),
        u64::from(p.general_tier_flag),
        u64::from(p.general_level_idc),
        u64::from(p.ptl_frame_only_constraint_flag),
        u64::from(p.ptl_multilayer_enabled_flag),
    ];
    text::put_numbers(out, at, &numbers)
}

// Puts a PTL: its numbers, then each array after its count.
pub fn put_ptl(out: &mut [u8], at: usize, p: VvcPtlRecord) -> usize {
    let bytes = p.general_constraint_info;
    let present = p.sublayer_level_present_flag;
    let level = p.sublayer_level_idc;
    let values = p.general_sub_profile_idc;
    let n = p.num_bytes_constraint_info;
    let m = p.num_sublayer_levels;
    let k = p.num_sub_profiles;
    let first = ptl_numbers(out, at, p);
    // `as`: u64 has no From of a usize; nothing is lost.
    let second = text::put_number(out, first, n as u64);
    let third = constraints(out, second, n, &bytes);
    // `as`: u64 has no From of a usize; nothing is lost.
    let fourth = text::put_number(out, third, m as u64);
    let fifth = levels(out, fourth, m, &present, &level);
    // `as`: u64 has no From of a usize; nothing is lost.
    let sixth = text::put_number(out, fifth, k as u64);
    sub_profiles(out, sixth, k, &values)
}
