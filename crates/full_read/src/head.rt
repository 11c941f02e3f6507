// Internal: the head of a full record.
ghost use Rattle.std.specs.Prelude.{◌≡◌, ◌+◌, ◌≤◌, ◌^◌, length};
ghost use Rattle.parse.specs.inner.Answers.{read_of};
ghost use Rattle.boxes.specs.Bytes.{be};
ghost use Rattle.full.specs.Read.{vvc_head, head_with_ptl, head_fields};
ghost use Rattle.full_read.specs.inner.Heads.{sizes_after};

use boxes::place;
use error::Refusal;
use full::VvcConfig;
use ptl::VvcPtlRecord;

// The fields of a head whose PTL ends at place `at`.
fn head_fields(s: &[u8], size: u8, ptl: VvcPtlRecord, at: usize) -> VvcConfig
    requires { (4 ≤ length s.now) × (at + 6 ≤ length s.now) }
    ensures { result ≡ head_fields size (be s.now 1 2) (be s.now 3 1) ptl (be s.now at 2)
        (be s.now (at + 2) 2) (be s.now (at + 4) 2) }
{
    let w = place::number(s, 1, 2);
    let d = place::number(s, 3, 1);
    let width = place::number(s, at, 2);
    let height = place::number(s, at + 2, 2);
    let rate = place::number(s, at + 4, 2);
    VvcConfig {
        length_size: size,
        ptl_present_flag: true,
        // `as`: each is cut out of a number with as many bits as its field, so nothing is lost.
        ols_idx: (w / 128) as u16,
        num_sublayers: (w / 16 % 8) as u8,
        constant_frame_rate: (w / 4 % 4) as u8,
        chroma_format_idc: (w % 4) as u8,
        bit_depth_minus8: (d / 32) as u8,
        native_ptl: ptl,
        max_picture_width: width as u16,
        max_picture_height: height as u16,
        avg_frame_rate: rate as u16,
    }
}

// Reads the three fields after the PTL, which ends at place `at`: the head, and the place after it. Refusal: 1.
fn read_sizes(
    s: &[u8],
    size: u8,
    ptl: VvcPtlRecord,
    at: usize,
) -> Result<(VvcConfig, usize), Refusal>
    requires { (length s.now ≤ 2 ^ 30) × (4 ≤ length s.now) }
    ensures { read_of result ≡ sizes_after size (be s.now 1 2) (be s.now 3 1) ptl s.now at }
{
    if s.len() < at || s.len() - at < 6 {
        return Err(Refusal::Truncated);
    }
    let head = head_fields(s, size, ptl, at);
    Ok((head, at + 6))
}

// Reads the fields under the PTL flag. Refusals in byte order: 1, 2.
fn read_with_ptl(s: &[u8], size: u8) -> Result<(VvcConfig, usize), Refusal>
    requires { (length s.now ≤ 2 ^ 30) × (1 ≤ length s.now) }
    ensures { read_of result ≡ head_with_ptl size s.now 1 }
{
    if s.len() < 4 {
        return Err(Refusal::Truncated);
    }
    let w = place::number(s, 1, 2);
    // `as`: three bits, so nothing is lost.
    let (ptl, at) = ptl_record_read::read::read_ptl(s, 4, (w / 16 % 8) as u8)?;
    read_sizes(s, size, ptl, at)
}

// Reads the head at the front of a record, and returns the place after it. Refusals: 1 for an empty record, 3 for prefix size 3, then in byte
// order 1 and 2.
pub fn read_head(s: &[u8]) -> Result<(VvcConfig, usize), Refusal>
    requires { length s.now ≤ 2 ^ 30 }
    ensures { read_of result ≡ vvc_head s.now 0 }
{
    if s.is_empty() {
        return Err(Refusal::Truncated);
    }
    let first = s[0];
    let minus_one = first / 2 % 4;
    if minus_one == 2 {
        return Err(Refusal::PrefixSizeThree);
    }
    let size = minus_one + 1;
    if first % 2 == 1 {
        return read_with_ptl(s, size);
    }
    let head = full::plain_head(size);
    Ok((head, 1))
}
