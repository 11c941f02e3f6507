// The size of a picture inside the conformance window of its SPS (SCOPE 4.4).
#![tactic(auto)]

pub mod cropped;

ghost use Rattle.std.specs.Prelude.{◌≡◌};
ghost use Rattle.cropped_size.specs.Cropped.{cropped_size};

use sps::SpsHead;

// A picture's size in luma samples.
#[derive(Clone, Copy, Debug, PartialEq, Eq)]
pub struct PictureSize {
    pub width: u32,
    pub height: u32,
}

// The size inside the conformance window; without the window flag the width and the height of the SPS.
#[tactic(auto, unfolding(crate::specs::Cropped::cropped_size))]
pub fn cropped_size(head: SpsHead) -> PictureSize
    ensures { result ≡ cropped_size head }
{
    if !head.conformance_window_flag {
        return PictureSize {
            width: head.pic_width,
            height: head.pic_height,
        };
    }
    let width = cropped::cropped_side(
        head.pic_width,
        cropped::sub_width(head.chroma_format_idc),
        head.conf_win_left_offset,
        head.conf_win_right_offset,
    );
    let height = cropped::cropped_side(
        head.pic_height,
        cropped::sub_height(head.chroma_format_idc),
        head.conf_win_top_offset,
        head.conf_win_bottom_offset,
    );
    PictureSize { width, height }
}
