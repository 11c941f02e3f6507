// Internal: reads the head of an SPS from the first bytes of its RBSP, in sections of its syntax table.
ghost use Rattle.std.specs.Prelude.{◌≡◌, ◌%◌, ◌≤◌, length, IfOk};
ghost use Rattle.parse.specs.Answers.{answer_of};
ghost use Rattle.parse.specs.Parse.{outcome};
ghost use Rattle.rbsp.specs.Rbsp.{rbsp};
ghost use Rattle.bit_reader.specs.inner.Reader.{Reads};
ghost use Rattle.sps.specs.Sps.{sps_head};
ghost use Rattle.sps.specs.inner.Sections.{ids, ptl_where, size, window_where, depth, sps_head_of};

use super::SpsHead;
use bit_reader::reader::BitReader;
use error::Refusal;
use params::RBSP_FRONT;
use ptl::{VvcPtlRecord, zeros};

// The fields before the PTL.
#[derive(Clone, Copy, Debug, PartialEq, Eq)]
pub struct SpsIds {
    pub sps_id: u8,
    pub vps_id: u8,
    pub max_sublayers_minus1: u8,
    pub chroma_format_idc: u8,
    pub log2_ctu_size: u8,
    pub ptl_present_flag: bool,
}

// The picture's size, and whether a window follows.
#[derive(Clone, Copy, Debug, PartialEq, Eq)]
pub struct SpsSize {
    pub pic_width: u32,
    pub pic_height: u32,
    pub conformance_window_flag: bool,
}

// The offsets of the conformance window.
#[derive(Clone, Copy, Debug, PartialEq, Eq)]
pub struct ConfWindow {
    pub left: u32,
    pub right: u32,
    pub top: u32,
    pub bottom: u32,
}

// Reads the fields before the PTL, two bytes. Refusal: 11.
#[tactic(auto, unfolding(crate::specs::inner::Sections::ids))]
fn read_ids(br: &mut BitReader) -> Result<SpsIds, Refusal>
    requires { length br.old.src.now ≤ 1132 }
    ensures { Reads ids br.old br.new result }
{
    let id = br.u(4)?;
    let vps = br.u(4)?;
    let max_sublayers_minus1 = br.u(3)?;
    let chroma_format_idc = br.u(2)?;
    let log2_ctu_size_minus5 = br.u(2)?;
    let ptl_present = br.u(1)?;
    Ok(SpsIds {
        // `as`: each is read from as many bits as its field has, so nothing is lost.
        sps_id: id as u8,
        vps_id: vps as u8,
        max_sublayers_minus1: max_sublayers_minus1 as u8,
        chroma_format_idc: chroma_format_idc as u8,
        log2_ctu_size: log2_ctu_size_minus5 as u8 + 5,
        ptl_present_flag: ptl_present == 1,
    })
}

// Reads the PTL, which follows these fields, where its flag is set; else it is all zeros. Refusal: 11.
fn read_ptl(br: &mut BitReader, ids: SpsIds) -> Result<VvcPtlRecord, Refusal>
    requires { (length br.old.src.now ≤ 1132) × (br.old.pos.0 % 8 ≡ 0) × (ids.max_sublayers_minus1 ≤ 7) }
    ensures { Reads (ptl_where ids.ptl_present_flag ids.max_sublayers_minus1) br.old br.new result }
{
    if ids.ptl_present_flag {
        ptl_bits::bits::parse_ptl(br, ids.max_sublayers_minus1)
    } else {
        Ok(zeros::zero_ptl())
    }
}

// Reads the fields after the PTL, up to the window's flag. Refusals: 11, 12.
#[tactic(auto, unfolding(crate::specs::inner::Sections::size))]
fn read_size(br: &mut BitReader) -> Result<SpsSize, Refusal>
    requires { length br.old.src.now ≤ 1132 }
    ensures { Reads size br.old br.new result }
{
    let _gdr_enabled = br.u(1)?;
    let resampling_enabled = br.u(1)?;
    let _res_change_allowed = br.u_if(resampling_enabled == 1, 1)?;
    let pic_width = br.ue()?;
    let pic_height = br.ue()?;
    let conformance_window = br.u(1)?;
    Ok(SpsSize {
        pic_width,
        pic_height,
        conformance_window_flag: conformance_window == 1,
    })
}

// Reads the window's four offsets where its flag is set; else they are 0. Refusals: 11, 12.
#[tactic(auto, unfolding(crate::specs::Sps::window))]
fn read_window(br: &mut BitReader, present: bool) -> Result<ConfWindow, Refusal>
    requires { length br.old.src.now ≤ 1132 }
    ensures { Reads (window_where present) br.old br.new result }
{
    if !present {
        return Ok(ConfWindow {
            left: 0,
            right: 0,
            top: 0,
            bottom: 0,
        });
    }
    let left = br.ue()?;
    let right = br.ue()?;
    let top = br.ue()?;
    let bottom = br.ue()?;
    Ok(ConfWindow {
        left,
        right,
        top,
        bottom,
    })
}

// Reads the subpictures' flag and the bit depth minus 8. Refusals in bit order: 11, 12, 13, 14.
#[tactic(auto, unfolding(crate::specs::inner::Sections::depth))]
fn read_depth(br: &mut BitReader) -> Result<u32, Refusal>
    requires { length br.old.src.now ≤ 1132 }
    ensures read { Reads depth br.old br.new result }
    ensures small { IfOk result (λ d. d ≤ 8) }
{
    if br.u(1)? == 1 {
        return Err(Refusal::Subpictures);
    }
    let depth = br.ue()?;
    if 8 < depth {
        return Err(Refusal::BitDepth);
    }
    Ok(depth)
}

// The head that the sections make up.
fn head_of(ids: SpsIds, ptl: VvcPtlRecord, size: SpsSize, window: ConfWindow, depth: u32) -> SpsHead
    requires { depth ≤ 8 }
    ensures { result ≡ sps_head_of ids ptl size window depth }
{
    SpsHead {
        sps_id: ids.sps_id,
        vps_id: ids.vps_id,
        max_sublayers_minus1: ids.max_sublayers_minus1,
        chroma_format_idc: ids.chroma_format_idc,
        log2_ctu_size: ids.log2_ctu_size,
        ptl_present_flag: ids.ptl_present_flag,
        ptl,
        pic_width: size.pic_width,
        pic_height: size.pic_height,
        conformance_window_flag: size.conformance_window_flag,
        conf_win_left_offset: window.left,
        conf_win_right_offset: window.right,
        conf_win_top_offset: window.top,
        conf_win_bottom_offset: window.bottom,
        // `as`: at most 8, so nothing is lost.
        bit_depth: depth as u8 + 8,
    }
}

// Reads the head of an SPS from the first bytes of its RBSP. Refusals in bit order: 11, 12, 13, 14.
#[tactic(auto, using(crate::proofs::SpsSections::sps_sections))]
pub fn parse_front(rbsp: &[u8]) -> Result<SpsHead, Refusal>
    requires { length rbsp.now ≤ 1132 }
    ensures { answer_of result ≡ outcome (sps_head rbsp.now 0) }
{
    let mut br = BitReader::new(rbsp);
    let ids = read_ids(&mut br)?;
    let ptl = read_ptl(&mut br, ids)?;
    let size = read_size(&mut br)?;
    let window = read_window(&mut br, size.conformance_window_flag)?;
    let depth = read_depth(&mut br)?;
    Ok(head_of(ids, ptl, size, window, depth))
}

// Reads the head of an SPS from its payload, of whose RBSP the first 1,132 bytes suffice. Refusals in bit order: 11, 12, 13, 14.
pub fn parse_payload(payload: &[u8]) -> Result<SpsHead, Refusal>
    ensures { answer_of result ≡ outcome (sps_head (rbsp payload.now) 0) }
{
    // a local array: no call allocates
    let mut buf = [0u8; RBSP_FRONT];
    let n = rbsp::fill::fill_rbsp(payload, &mut buf);
    parse_front(&buf[..n])
}
