// The library for C and Rust: the calls on one still, assembly, the walks over units, and the unit check. Every answer is a struct of numbers. Each
// call is the function of that name in the library of its family, under the same clauses; it is what the static library exports.
#![tactic(auto)]

ghost use Rattle.std.specs.Prelude.{◌≡◌};
ghost use Rattle.unit_check.specs.Answers.{checked};
ghost use Rattle.annex_b.specs.Answers.{next_given};
ghost use Rattle.split.specs.Answers.{next_item_unit};
ghost use Rattle.full.specs.Strict.{parse_strict};
ghost use Rattle.still.specs.Stills.{still_record, still_stream};
ghost use Rattle.vvcc_answers.specs.Answers.{written_given, unit_answer, check_answer, target_from, codes_from};
ghost use Rattle.vvcc_records.specs.Records.{read_given, scratch_filled, stream_beside};

use vvcc_answers::{VvccCheck, VvccRead, VvccUnit, VvccWritten};

// The full record of a still. Refusals: those of `still_record`.
#[unsafe(no_mangle)]
pub extern "C" fn vvcc_still_record(
    record: &[u8],
    chroma_format_idc: u8,
    bit_depth: u8,
    width: u32,
    height: u32,
    out: &mut [u8],
) -> VvccWritten
    ensures { (result, out.new) ≡ written_given (still_record «record».now
        (record { chroma_format_idc = chroma_format_idc; bit_depth = bit_depth; width = width; height = height })) out.old }
{
    vvcc_still::vvcc_still_record(record, chroma_format_idc, bit_depth, width, height, out)
}

// The stream of a still. Refusals: those of `still_stream`.
#[unsafe(no_mangle)]
pub extern "C" fn vvcc_still_stream(
    record: &[u8],
    stored: &[u8],
    has_target: u8,
    target: u16,
    short_codes: u8,
    out: &mut [u8],
) -> VvccWritten
    ensures { (result, out.new)
        ≡ written_given (still_stream (codes_from short_codes) «record».now stored.now (target_from has_target target))
        out.old }
{
    vvcc_still::vvcc_still_stream(record, stored, has_target, target, short_codes, out)
}

// The stream of a full record and an item. The record's unit list is written to `scratch`. Refusals: 23, those of `full_read::parse`, 20 where
// `scratch` is too short, those of `access_unit_annex_b`.
#[unsafe(no_mangle)]
pub extern "C" fn vvcc_access_unit(
    record: &[u8],
    item: &[u8],
    has_target: u8,
    target: u16,
    short_codes: u8,
    scratch: &mut [u8],
    out: &mut [u8],
) -> VvccWritten
    ensures out_after { (result, out.new) ≡ written_given
        (stream_beside (codes_from short_codes) «record».now item.now (target_from has_target target) scratch.old)
        out.old }
    ensures scratch_after { scratch.new ≡ scratch_filled «record».now item.now scratch.old }
{
    vvcc_records::vvcc_access_unit(record, item, has_target, target, short_codes, scratch, out)
}

// Reads a full record strictly: whether an archive may store it. The record's unit list is written to `scratch`. Refusals: those of
// `full_read::parse_strict`, where 20 is about `scratch`.
#[unsafe(no_mangle)]
pub extern "C" fn vvcc_strict_record(record: &[u8], scratch: &mut [u8]) -> VvccRead
    ensures { (result, scratch.new) ≡ read_given (parse_strict «record».now) scratch.old }
{
    vvcc_records::vvcc_strict_record(record, scratch)
}

// The first unit of a stream whose start code is at or after the place `from`. Refusal: 23.
#[unsafe(no_mangle)]
pub extern "C" fn vvcc_next_unit(stream: &[u8], from: usize) -> VvccUnit
    ensures { result ≡ unit_answer (next_given stream.now from) }
{
    vvcc_units::vvcc_next_unit(stream, from)
}

// The unit of an item whose length prefix is at the place `from`. Refusals: 23, 4, then in byte order 1 and 5.
#[unsafe(no_mangle)]
pub extern "C" fn vvcc_next_item_unit(item: &[u8], length_size: u8, from: usize) -> VvccUnit
    ensures { result ≡ unit_answer (next_item_unit length_size item.now from) }
{
    vvcc_units::vvcc_next_item_unit(item, length_size, from)
}

// Whether a unit has only bytes that H.266 allows in one. Refusal: 23.
#[unsafe(no_mangle)]
pub extern "C" fn vvcc_check_unit(unit: &[u8]) -> VvccCheck
    ensures { result ≡ check_answer (checked unit.now) }
{
    vvcc_units::vvcc_check_unit(unit)
}
