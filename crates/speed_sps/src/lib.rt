// For speed/run alone: SPS reading with an answer of numbers. `speed_sps_c` exports it to C.
#![tactic(auto)]

ghost use Rattle.std.specs.Prelude.{◌≡◌};
ghost use Rattle.sps.specs.Sps.{parse_sps_rbsp};
ghost use Rattle.speed_sps.specs.Numbers.{numbers_of};

use error::number;
use sps::SpsHead;

// 0 and the numbers of a head, or a refusal's number and zeros. C reads the struct, which has a number in place of a Result.
#[repr(C)]
#[derive(Clone, Copy, Debug, PartialEq, Eq)]
pub struct SpsNumbers {
    pub refusal: u32,
    pub pic_width: u32,
    pub pic_height: u32,
    pub conf_win_left_offset: u32,
    pub conf_win_right_offset: u32,
    pub conf_win_top_offset: u32,
    pub conf_win_bottom_offset: u32,
    pub bit_depth: u8,
}

// Reads the head of an SPS from its RBSP. Refusals: those of `SpsHead::parse_rbsp`.
pub fn speed_sps(rbsp: &[u8]) -> SpsNumbers
    ensures { result ≡ numbers_of (parse_sps_rbsp rbsp.now) }
{
    match SpsHead::parse_rbsp(rbsp) {
        Ok(head) => SpsNumbers {
            refusal: 0,
            pic_width: head.pic_width,
            pic_height: head.pic_height,
            conf_win_left_offset: head.conf_win_left_offset,
            conf_win_right_offset: head.conf_win_right_offset,
            conf_win_top_offset: head.conf_win_top_offset,
            conf_win_bottom_offset: head.conf_win_bottom_offset,
            bit_depth: head.bit_depth,
        },
        Err(e) => SpsNumbers {
            refusal: number(e),
            pic_width: 0,
            pic_height: 0,
            conf_win_left_offset: 0,
            conf_win_right_offset: 0,
            conf_win_top_offset: 0,
            conf_win_bottom_offset: 0,
            bit_depth: 0,
        },
    }
}
