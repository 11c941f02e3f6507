// One still, from compact record to stream (SCOPE 4.7): definitions and theorems, the lengths of its lists, and the length of its item. The calls are
// in `still_record` and `still_stream`.
#![tactic(auto)]

pub mod item;

use expand::Picture;

// The greatest length of the unit list of a compact record: version, the head of one array, 33 units of 255 bytes after their lengths.
pub const COMPACT_LIST: usize = 1 + 6 + 33 * 259;

// The greatest length of the expanded list: version, the heads of 33 arrays, 33 units of 255 bytes after their lengths.
pub const EXPANDED_LIST: usize = 1 + 33 * 6 + 33 * 259;

// The picture that a stream is made with. A stream does not depend on it.
pub const ANY_PICTURE: Picture = Picture {
    chroma_format_idc: 1,
    bit_depth: 8,
    width: 0,
    height: 0,
};
