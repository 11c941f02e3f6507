// Internal: measures a PTL record, and stores its bytes at a place of lent memory that has room for them.
ghost use Rattle.std.specs.Prelude.{true, ◌≡◌, ◌+◌, ◌*◌, ◌≤◌, ◌<◌, length, take};
ghost use Rattle.std.proofs.lemmas.List.Edits.{sets};
ghost use Rattle.ptl_record.specs.Write.{constraint_info, with_flags, has_level, flag_byte, level_bytes};
ghost use Rattle.ptl_record.specs.Write.{level_part, sub_profile_bytes, ptl_bytes, ptl_fits, front_bytes};
ghost use Rattle.ptl_record.specs.inner.Places.{one_level};
ghost use Rattle.ptl_record_write.specs.inner.Places.{first_constraint_byte};

use boxes::place;
use ptl::VvcPtlRecord;

// Whether every field fits its place.
pub fn ptl_fits(p: VvcPtlRecord) -> bool
    ensures { result ≡ ptl_fits p }
{
    p.general_profile_idc <= 127
        && p.num_bytes_constraint_info <= 63
        && p.num_sublayer_levels <= 7
        && p.num_sub_profiles <= 255
}

// How many constraint bytes are written: 1 where there are none.
fn constraint_len(p: VvcPtlRecord) -> usize
    requires { p.num_bytes_constraint_info ≤ 63 }
    ensures { (result ≡ length (constraint_info p)) × (1 ≤ result) × (result ≤ 63) }
{
    p.num_bytes_constraint_info.max(1)
}

// Whether sublayer i has a level.
fn has_level(p: VvcPtlRecord, i: usize) -> bool
    requires { i < 7 }
    ensures { result ≡ has_level p i }
{
    i < p.num_sublayer_levels && p.sublayer_level_present_flag[i]
}

// How many of the sublayers below m have a level.
fn levels_len(p: VvcPtlRecord, m: usize) -> usize
    requires { m ≤ 7 }
    ensures { (result ≡ length (level_bytes p m)) × (result ≤ m) }
{
    let mut n: usize = 0;
    for i in 0..m {
        n += usize::from(has_level(p, i));
    }
    n
}

// The length of the flag byte and the levels, 0 for at most one sublayer.
fn level_part_len(p: VvcPtlRecord, sublayers: u8) -> usize
    requires { sublayers ≤ 7 }
    ensures { (result ≡ length (level_part p sublayers)) × (result ≤ 7) }
{
    if sublayers <= 1 {
        return 0;
    }
    1 + levels_len(p, ptl_record::levels::level_count(sublayers))
}

// The length of a PTL record for a number of sublayers.
pub fn ptl_len(p: VvcPtlRecord, sublayers: u8) -> usize
    requires { (ptl_fits p ≡ true) × (sublayers ≤ 7) }
    ensures { (result ≡ length (ptl_bytes p sublayers)) × (result ≤ 1094) }
{
    let count = p.num_sub_profiles;
    let info = constraint_len(p);
    let levels = level_part_len(p, sublayers);
    3 + info + levels + 1 + count * 4
}

// The first constraint byte: the top two bits are the frame-only flag and the multilayer flag; without constraint bytes the others are 0.
fn first_byte(p: VvcPtlRecord) -> u8
    ensures { result ≡ first_constraint_byte p }
{
    let frame_only = u8::from(p.ptl_frame_only_constraint_flag);
    let multilayer = u8::from(p.ptl_multilayer_enabled_flag);
    let flags = frame_only * 128 + multilayer * 64;
    if p.num_bytes_constraint_info == 0 {
        flags
    } else {
        flags + p.general_constraint_info[0] % 64
    }
}

// Stores the n constraint bytes, the flags in the first.
fn put_info(out: &mut [u8], at: usize, p: VvcPtlRecord, n: usize)
    requires { (p.num_bytes_constraint_info ≤ 63) × (n ≡ length (constraint_info p)) × (n ≤ 63) × (at + n ≤ length out.old) }
    ensures { out.new ≡ sets out.old at (with_flags p (constraint_info p)) }
{
    let mut info = p.general_constraint_info;
    info[0] = first_byte(p);
    place::copy(&info[0..n], out, at);
}

// Stores what comes before the levels, and returns the place after it.
fn put_front(out: &mut [u8], at: usize, p: VvcPtlRecord) -> usize
    requires { (p.general_profile_idc ≤ 127) × (p.num_bytes_constraint_info ≤ 63) × (at + length (front_bytes p) ≤ length out.old) }
    ensures { (result ≡ at + length (front_bytes p)) × (out.new ≡ sets out.old at (front_bytes p)) × (result ≤ at + 66) }
{
    let n = constraint_len(p);
    let tier = u8::from(p.general_tier_flag);
    // `as`: at most 63, so nothing is lost.
    place::put(out, at, n as u8);
    place::put(out, at + 1, p.general_profile_idc * 2 + tier);
    place::put(out, at + 2, p.general_level_idc);
    put_info(out, at + 3, p, n);
    at + 3 + n
}

// The present flags of the sublayers below m, from the highest down in the top bits.
fn flag_byte(p: VvcPtlRecord, m: usize) -> u8
    requires { m ≤ 7 }
    ensures { result ≡ flag_byte p m }
{
    let mut f: u8 = 0;
    for i in 0..m {
        f = u8::from(has_level(p, i)) * 128 + f / 2;
    }
    f
}

// Stores a level, where there is one, and returns the place after it.
fn put_level(out: &mut [u8], at: usize, present: bool, level: u8) -> usize
    requires { at + length (one_level present level) ≤ length out.old }
    ensures { (result ≡ at + length (one_level present level)) × (out.new ≡ sets out.old at (one_level present level)) }
{
    if present {
        place::put(out, at, level);
        return at + 1;
    }
    at
}

// Stores the levels of the sublayers below m that have one, from the highest down, and returns the place after them.
fn put_levels(out: &mut [u8], at: usize, p: VvcPtlRecord, m: usize) -> usize
    requires { (m ≤ 7) × (at + length (level_bytes p m) ≤ length out.old) }
    ensures { (result ≡ at + length (level_bytes p m)) × (out.new ≡ sets out.old at (level_bytes p m)) }
{
    let mut w = at;
    for i in (0..m).rev() {
        w = put_level(out, w, has_level(p, i), p.sublayer_level_idc[i]);
    }
    w
}

// Stores the flag byte and the levels, only for more than one sublayer, and returns the place after them.
fn put_level_part(out: &mut [u8], at: usize, p: VvcPtlRecord, sublayers: u8) -> usize
    requires { (sublayers ≤ 7) × (at + length (level_part p sublayers) ≤ length out.old) }
    ensures { (result ≡ at + length (level_part p sublayers)) × (out.new ≡ sets out.old at (level_part p sublayers)) }
{
    if sublayers <= 1 {
        return at;
    }
    let m = ptl_record::levels::level_count(sublayers);
    let f = flag_byte(p, m);
    place::put(out, at, f);
    put_levels(out, at + 1, p, m)
}

// Stores the first n sub-profiles of an array.
fn put_sub_profiles(out: &mut [u8], at: usize, a: [u32; 255], n: usize)
    requires { (n ≤ 255) × (at + n * 4 ≤ length out.old) }
    ensures { out.new ≡ sets out.old at (sub_profile_bytes (take n a)) }
{
    for k in 0..n {
        // `as`: usize has no From of a u32; nothing is lost.
        place::put_number(out, at + k * 4, 4, a[k] as usize);
    }
}

// Stores the bytes of a PTL record for a number of sublayers from a place on, and returns the place after them.
pub fn put_ptl(out: &mut [u8], at: usize, p: VvcPtlRecord, sublayers: u8) -> usize
    requires { (ptl_fits p ≡ true) × (sublayers ≤ 7) × (at + length (ptl_bytes p sublayers) ≤ length out.old) }
    ensures { (result ≡ at + length (ptl_bytes p sublayers)) × (out.new ≡ sets out.old at (ptl_bytes p sublayers))
        × (result ≤ at + 1094) }
{
    let count = p.num_sub_profiles;
    let sub_profiles = p.general_sub_profile_idc;
    let a = put_front(out, at, p);
    let b = put_level_part(out, a, p, sublayers);
    // `as`: at most 255, so nothing is lost.
    place::put(out, b, count as u8);
    put_sub_profiles(out, b + 1, sub_profiles, count);
    b + 1 + count * 4
}
