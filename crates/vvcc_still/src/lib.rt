// The calls on one still for C and Rust: its record and its stream.
#![tactic(auto)]

ghost use Rattle.std.specs.Prelude.{◌≡◌};
ghost use Rattle.still.specs.Stills.{still_record, still_stream};
ghost use Rattle.vvcc_answers.specs.Answers.{written_given, target_from, codes_from};

use expand::Picture;
use vvcc_answers::{VvccWritten, answers};

// The full record of a still. Refusals: those of `still_record`.
pub fn vvcc_still_record(
    record: &[u8],
    chroma_format_idc: u8,
    bit_depth: u8,
    width: u32,
    height: u32,
    out: &mut [u8],
) -> VvccWritten
    ensures { (result, out.new) ≡ written_given (still_record «record».now
        (record { chroma_format_idc = chroma_format_idc; bit_depth = bit_depth; width = width; height = height })) out.old }
{
    let picture = Picture {
        chroma_format_idc,
        bit_depth,
        width,
        height,
    };
    let written = still_record::still_record(record, picture, out);
    answers::written(written)
}

// The stream of a still. Refusals: those of `still_stream`.
pub fn vvcc_still_stream(
    record: &[u8],
    stored: &[u8],
    has_target: u8,
    target: u16,
    short_codes: u8,
    out: &mut [u8],
) -> VvccWritten
    ensures { (result, out.new)
        ≡ written_given (still_stream (codes_from short_codes) «record».now stored.now (target_from has_target target))
        out.old }
{
    let tols = answers::target_from(has_target, target);
    let codes = answers::codes_from(short_codes);
    let written = still_stream::still_stream(record, stored, tols, codes, out);
    answers::written(written)
}
