// Internal: reads the PTL record at a place of lent bytes.
ghost use Rattle.std.specs.Prelude.{false, ◌≡◌, ◌+◌, ◌*◌, ◌%◌, ◌^◌, ◌≤◌, ◌<◌, length, get_or, take, drop};
ghost use Rattle.parse.specs.inner.Answers.{read_of};
ghost use Rattle.ptl.specs.Ptl.{padded, present_flags, without_flags};
ghost use Rattle.ptl_record.specs.Read.{vvc_ptl_record};
ghost use Rattle.ptl_record.specs.inner.Places.{words, levels_len, level_if, levels_at, flags_at, levels_start, ptl_end, ptl_fields};

use boxes::{Span, place};
use error::Refusal;
use ptl::VvcPtlRecord;

// The levels of the sublayers with their flags, and the place after them.
#[derive(Clone, Copy)]
struct SublayerLevels {
    next: usize,
    present: [bool; 7],
    idc: [u8; 7],
}

// The n constraint bytes at a place; the two flags are set to 0.
fn read_constraint_info(s: &[u8], at: usize, n: usize) -> [u8; 63]
    requires { (n ≤ 63) × (at + n ≤ length s.now) }
    ensures { result ≡ padded 63 0 (without_flags (take n (drop at s.now))) }
{
    let mut info = [0u8; 63];
    let bytes = place::part(s, Span { start: at, len: n });
    place::copy(bytes, &mut info, 0);
    info[0] = info[0] % 64;
    info
}

// The level at a place where its flag is set, else 0.
fn level_if(flag: u8, s: &[u8], at: usize) -> u8
    ensures { result ≡ level_if flag s.now at }
{
    if flag == 1 { place::byte(s, at) } else { 0 }
}

// Reads the levels of the sublayers below m, which lie from the highest down; a sublayer's flag is the top bit of what is left of `flags`.
fn read_levels(s: &[u8], at: usize, flags: u8, m: usize) -> SublayerLevels
    requires { (m ≤ 7) × (at ≤ 2 ^ 31) }
    ensures { (result.next ≤ at + 7)
        × (result.next ≡ at + levels_len m flags)
        × (result.present ≡ padded 7 false (present_flags m flags))
        × (result.idc ≡ padded 7 0 (levels_at m flags s.now at)) }
{
    let mut present = [false; 7];
    let mut idc = [0u8; 7];
    let mut next = at;
    let mut f = flags;
    for i in (0..m).rev() {
        let flag = f / 128;
        present[i] = flag == 1;
        idc[i] = level_if(flag, s, next);
        next += usize::from(flag);
        f = f % 128 * 2;
    }
    SublayerLevels { next, present, idc }
}

// The n sub-profiles at a place.
fn read_sub_profiles(s: &[u8], at: usize, n: usize) -> [u32; 255]
    requires { (n ≤ 255) × (at + n * 4 ≤ length s.now) }
    ensures { result ≡ padded 255 0 (words n s.now at) }
{
    let mut a = [0u32; 255];
    for k in 0..n {
        // `as`: a number of four bytes, so nothing is lost.
        a[k] = place::number(s, at + k * 4, 4) as u32;
    }
    a
}

// The byte of flags before the levels, 0 where there is none.
fn flags_at(sublayers: u8, s: &[u8], at: usize) -> u8
    ensures { result ≡ flags_at sublayers s.now at }
{
    if 1 < sublayers { place::byte(s, at) } else { 0 }
}

// The place after that byte.
fn levels_start(sublayers: u8, at: usize) -> usize
    requires { at ≤ 2 ^ 31 }
    ensures { (result ≡ levels_start sublayers at) × (at ≤ result) × (result ≤ at + 1) }
{
    if 1 < sublayers { at + 1 } else { at }
}

// The fields of the record at a place, with n constraint bytes and the levels that were read.
fn ptl_fields(s: &[u8], at: usize, n: usize, m: usize, levels: SublayerLevels) -> VvcPtlRecord
    requires { (length s.now ≤ 2 ^ 30) × (n ≤ 63) × (at + 3 + n ≤ length s.now) × (levels.next ≤ length s.now)
        × (ptl_end s.now levels.next ≤ length s.now) }
    ensures { result ≡ ptl_fields s.now at n m levels.present levels.idc levels.next }
{
    let second = place::byte(s, at + 1);
    let third = place::byte(s, at + 2);
    let first = place::byte(s, at + 3);
    let info = read_constraint_info(s, at + 3, n);
    let SublayerLevels { next, present, idc } = levels;
    let count = usize::from(place::byte(s, next));
    let sub_profiles = read_sub_profiles(s, next + 1, count);
    VvcPtlRecord {
        general_profile_idc: second / 2,
        general_tier_flag: second % 2 == 1,
        general_level_idc: third,
        ptl_frame_only_constraint_flag: first / 128 == 1,
        ptl_multilayer_enabled_flag: first / 64 % 2 == 1,
        num_bytes_constraint_info: n,
        general_constraint_info: info,
        num_sublayer_levels: m,
        sublayer_level_present_flag: present,
        sublayer_level_idc: idc,
        num_sub_profiles: count,
        general_sub_profile_idc: sub_profiles,
    }
}

// Reads the record at a place, whose first byte has the constraint length n. Refusal: 1.
fn read_after(
    s: &[u8],
    at: usize,
    n: usize,
    sublayers: u8,
) -> Result<(VvcPtlRecord, usize), Refusal>
    requires { (length s.now ≤ 2 ^ 30) × (at < length s.now) × (sublayers ≤ 7) × (n ≡ get_or s.now at 0 % 64) × (0 < n) }
    ensures { read_of result ≡ vvc_ptl_record sublayers s.now at }
{
    let after = at + 3 + n;
    let flags = flags_at(sublayers, s, after);
    let from = levels_start(sublayers, after);
    let m = ptl_record::levels::level_count(sublayers);
    let levels = read_levels(s, from, flags, m);
    let count = usize::from(place::byte(s, levels.next));
    let end = levels.next + 1 + count * 4;
    if s.len() < end {
        return Err(Refusal::Truncated);
    }
    let ptl = ptl_fields(s, at, n, m, levels);
    Ok((ptl, end))
}

// Reads the PTL record at a place, for a number of sublayers: the record, and the place after it. Refusals in byte order: 1, 2 for a
// constraint length of 0.
pub fn read_ptl(s: &[u8], at: usize, sublayers: u8) -> Result<(VvcPtlRecord, usize), Refusal>
    requires { (length s.now ≤ 2 ^ 30) × (sublayers ≤ 7) }
    ensures { read_of result ≡ vvc_ptl_record sublayers s.now at }
{
    if s.len() <= at {
        return Err(Refusal::Truncated);
    }
    let n = usize::from(s[at]) % 64;
    if n == 0 {
        return Err(Refusal::ConstraintLengthZero);
    }
    read_after(s, at, n, sublayers)
}
