// The calls on parameter sets that `replay` makes: those of `rbsp`, `sps`, `vps`, `opi` and `cropped_size`.
#![tactic(auto)]

use error::Refusal;
use ptl::zeros;
use replay_text::{shown, text};
use sps::SpsHead;

// `SpsHead::parse_nal`, `SpsHead::parse_rbsp`: the answer and the head; on a refusal a head of zeros.
fn put_sps(out: &mut [u8], at: usize, r: Result<SpsHead, Refusal>) -> usize {
    match r {
        Ok(head) => {
            let next = shown::accepted(out, at);
            replay_heads::put_sps_head(out, next, head)
        }
        Err(e) => {
            let next = shown::refused(out, at, e);
            replay_heads::put_no_sps(out, next)
        }
    }
}

// `vps_first_ptl`: the answer and the PTL; on a refusal a PTL of zeros.
fn vps(s: &[u8], out: &mut [u8], at: usize) -> usize {
    match vps::vps_first_ptl(s) {
        Ok(ptl) => {
            let next = shown::accepted(out, at);
            replay_ptl::put_ptl(out, next, ptl)
        }
        Err(e) => {
            let next = shown::refused(out, at, e);
            replay_ptl::put_ptl(out, next, zeros::zero_ptl())
        }
    }
}

// `opi_ols_idx`: 1 and the operating point, or 0 if it is absent.
fn opi(s: &[u8], out: &mut [u8], at: usize) -> usize {
    match opi::opi_ols_idx(s) {
        // `as`: usize has no From of a u32 or u64; nothing is lost.
        Ok(Some(v)) => shown::pair(out, at, 1, v as usize),
        Ok(None) => shown::number(out, at, 0),
        Err(e) => shown::refused(out, at, e),
    }
}

// `cropped_size`
fn cropped(numbers: &[u8], fill: u8, out: &mut [u8], at: usize) -> usize {
    let head = replay_heads::window_head(numbers, fill);
    let size = cropped_size::cropped_size(head);
    let next = shown::accepted(out, at);
    let sides = [u64::from(size.width), u64::from(size.height)];
    text::put_numbers(out, next, &sides)
}

// The calls by their numbers, which are those of the format of a case (crates/replay/README.md).
pub fn answer(
    op: u8,
    fill: u8,
    numbers: &[u8],
    s: &[u8],
    lent: &mut [u8],
    out: &mut [u8],
    at: usize,
) -> usize {
    match op {
        18 => shown::counted(out, at, rbsp::extract_rbsp(s, lent)),
        19 => put_sps(out, at, SpsHead::parse_nal(s)),
        20 => vps(s, out, at),
        21 => opi(s, out, at),
        22 => cropped(numbers, fill, out, at),
        _ => put_sps(out, at, SpsHead::parse_rbsp(s)),
    }
}
