// Internal: the head of an expanded record (SCOPE 3.8).
ghost use Rattle.std.specs.Prelude.{◌≡◌, min};
ghost use Rattle.expand.specs.Expand.{expanded_head};

use super::Picture;
use compact::CompactVvcConfig;
use full::VvcConfig;
use ptl::VvcPtlRecord;

// A width or height, at most 65,535.
fn cut(side: u32) -> u16
    ensures { result ≡ min side 65535 }
{
    // `as`: at most 65,535, so nothing is lost.
    side.min(65535) as u16
}

// The head that a compact record with this PTL expands to, for the caller's picture. A bit depth below 8 is written as 0.
pub fn expanded_head(config: CompactVvcConfig, picture: Picture, ptl: VvcPtlRecord) -> VvcConfig
    ensures { result ≡ expanded_head config picture ptl }
{
    VvcConfig {
        length_size: config.length_size,
        ptl_present_flag: true,
        ols_idx: 0,
        num_sublayers: 1,
        constant_frame_rate: 1,
        chroma_format_idc: picture.chroma_format_idc,
        bit_depth_minus8: picture.bit_depth.saturating_sub(8),
        native_ptl: ptl,
        max_picture_width: cut(picture.width),
        max_picture_height: cut(picture.height),
        avg_frame_rate: 0,
    }
}
