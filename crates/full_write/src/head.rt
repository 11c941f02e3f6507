// Internal: the head of a full record tested, measured and stored.
ghost use Rattle.std.specs.Prelude.{true, ◌++◌, ◌≡◌, ◌+◌, ◌*◌, ◌≤◌, length};
ghost use Rattle.std.proofs.lemmas.List.Edits.{sets};
ghost use Rattle.boxes.specs.Bytes.{to_be};
ghost use Rattle.record_arrays_write.specs.inner.Record.{HeadIs, HeadShort};
ghost use Rattle.full.specs.Write.{ptl_part, head_bytes, ptl_part_fits, head_fits};
ghost use Rattle.full_write.specs.inner.Head.{head_written};

use boxes::place;
use error::Refusal;
use full::VvcConfig;

// Whether every value under the PTL flag fits its field.
#[tactic(auto, unfolding(full::specs::Write::ptl_part_fits))]
fn ptl_part_fits(h: VvcConfig) -> bool
    ensures { result ≡ ptl_part_fits h }
{
    h.ols_idx <= 511
        && h.num_sublayers <= 7
        && h.constant_frame_rate <= 3
        && h.chroma_format_idc <= 3
        && h.bit_depth_minus8 <= 7
        && ptl_record_write::write::ptl_fits(h.native_ptl)
}

// Whether every value that is written fits its field.
#[tactic(auto, unfolding(full::specs::Write::head_fits))]
fn head_fits(h: VvcConfig) -> bool
    ensures { result ≡ head_fits h }
{
    !place::outside(h.length_size) && (!h.ptl_present_flag || ptl_part_fits(h))
}

// The length of a head.
fn head_len(h: VvcConfig) -> usize
    requires { head_fits h ≡ true }
    ensures { (result ≡ length (head_bytes h)) × (result ≤ 1104) }
{
    if h.ptl_present_flag {
        return 10 + ptl_record_write::write::ptl_len(h.native_ptl, h.num_sublayers);
    }
    1
}

// The length of a head. Refusals: 3, 22.
pub fn head_size(h: VvcConfig) -> Result<usize, Refusal>
    ensures { HeadIs (head_written h) result × HeadShort result }
{
    if h.length_size == 3 {
        return Err(Refusal::PrefixSizeThree);
    }
    if !head_fits(h) {
        return Err(Refusal::FieldTooWide);
    }
    Ok(head_len(h))
}

// The first two bytes under the PTL flag as one number: ols_idx 9, num_sublayers 3, constant_frame_rate 2, chroma_format_idc 2.
fn word_of(ols_idx: u16, sublayers: u8, rate: u8, chroma: u8) -> usize
    ensures { result ≡ ols_idx * 128 + sublayers * 16 + rate * 4 + chroma }
{
    let high = usize::from(ols_idx) * 128 + usize::from(sublayers) * 16;
    high + usize::from(rate) * 4 + usize::from(chroma)
}

// Stores max_picture_width, max_picture_height and avg_frame_rate, two bytes each.
fn put_picture(out: &mut [u8], at: usize, width: u16, height: u16, rate: u16)
    requires { at + 6 ≤ length out.old }
    ensures { out.new ≡ sets out.old at (to_be 2 width ++ to_be 2 height ++ to_be 2 rate) }
{
    place::put_number(out, at, 2, usize::from(width));
    place::put_number(out, at + 2, 2, usize::from(height));
    place::put_number(out, at + 4, 2, usize::from(rate));
}

// Stores the fields under the PTL flag.
fn put_ptl_part(out: &mut [u8], at: usize, h: VvcConfig)
    requires { (ptl_part_fits h ≡ true) × (at + length (ptl_part h) ≤ length out.old) }
    ensures { out.new ≡ sets out.old at (ptl_part h) }
{
    let word = word_of(
        h.ols_idx,
        h.num_sublayers,
        h.constant_frame_rate,
        h.chroma_format_idc,
    );
    place::put_number(out, at, 2, word);
    place::put(out, at + 2, h.bit_depth_minus8 * 32 + 31);
    let after = ptl_record_write::write::put_ptl(out, at + 3, h.native_ptl, h.num_sublayers);
    put_picture(
        out,
        after,
        h.max_picture_width,
        h.max_picture_height,
        h.avg_frame_rate,
    );
}

// Stores a head at the front of the output.
pub fn put_head(out: &mut [u8], h: VvcConfig)
    requires { (head_fits h ≡ true) × (length (head_bytes h) ≤ length out.old) }
    ensures { out.new ≡ sets out.old 0 (head_bytes h) }
{
    let flag = u8::from(h.ptl_present_flag);
    place::put(out, 0, 248 + (h.length_size - 1) * 2 + flag);
    if h.ptl_present_flag {
        put_ptl_part(out, 1, h);
    }
}
