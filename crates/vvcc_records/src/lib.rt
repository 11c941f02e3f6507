// The calls on a full record for C and Rust: assembly with an item, and strict reading.
#![tactic(auto)]

pub mod numbers;

ghost use Rattle.std.specs.Prelude.{◌≡◌};
ghost use Rattle.full.specs.Strict.{parse_strict};
ghost use Rattle.vvcc_answers.specs.Answers.{written_given, target_from, codes_from};
ghost use Rattle.vvcc_records.specs.Records.{read_given, scratch_filled, stream_beside};

use access_unit_annex_b::access_unit_annex_b;
use error::{LARGEST_INPUT, Refusal};
use vvcc_answers::{VvccRead, VvccWritten, answers};

// The stream of a full record and an item. The record's unit list is written to `scratch`. Refusals: 23, those of `full_read::parse`, 20 where
// `scratch` is too short, those of `access_unit_annex_b`.
pub fn vvcc_access_unit(
    record: &[u8],
    item: &[u8],
    has_target: u8,
    target: u16,
    short_codes: u8,
    scratch: &mut [u8],
    out: &mut [u8],
) -> VvccWritten
    ensures out_after { (result, out.new) ≡ written_given
        (stream_beside (codes_from short_codes) «record».now item.now (target_from has_target target) scratch.old)
        out.old }
    ensures scratch_after { scratch.new ≡ scratch_filled «record».now item.now scratch.old }
{
    if LARGEST_INPUT < item.len() {
        return answers::refused(Refusal::InputTooLong);
    }
    match full_read::parse(record, scratch) {
        Ok(read) => {
            let tols = answers::target_from(has_target, target);
            let codes = answers::codes_from(short_codes);
            let list = &scratch[..read.list_length];
            answers::written(access_unit_annex_b(read.head, list, item, tols, codes, out))
        }
        Err(e) => answers::refused(e),
    }
}

// Reads a full record strictly: whether an archive may store it. The record's unit list is written to `scratch`. Refusals: those of
// `full_read::parse_strict`, where 20 is about `scratch`.
pub fn vvcc_strict_record(record: &[u8], scratch: &mut [u8]) -> VvccRead
    ensures { (result, scratch.new) ≡ read_given (parse_strict «record».now) scratch.old }
{
    numbers::consumed(full_read::parse_strict(record, scratch))
}
