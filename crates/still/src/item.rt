// Internal: the length of the item of a still, if full write accepts the record.
ghost use Rattle.std.specs.Prelude.{◌≡◌};
ghost use Rattle.parse.specs.Answers.{answer_of};
ghost use Rattle.boxes.specs.Walk.{count_found};
ghost use Rattle.unit_list.specs.Answers.{list_units_of_type};
ghost use Rattle.still.specs.inner.Steps.{single, item_unless_refused};

use compact::CompactVvcConfig;
use error::Refusal;
use nal::{NAL_DCI, NAL_OPI};

// Whether the arrays of a type have at most one unit.
fn is_single(list: &[u8], t: u8) -> bool
    ensures { result ≡ single (list_units_of_type t list.now) }
{
    match list_units::nal_count_of_type(list, t) {
        Ok(n) => n <= 1,
        Err(_) => false,
    }
}

// The length of the item of the stored bytes, if full write accepts the record of an expanded list. Neither is made: of an expansion full write can
// refuse only a prefix size of 3, and two units of type 12 or 13, whose arrays have no count; full read returns the same list and what assembly
// uses of the head, and the item is the stored bytes or has them as its one unit's payload. Refusals: 3, 22; 23; with the flag clear 6.
pub fn restored_len(config: CompactVvcConfig, list: &[u8], stored: &[u8]) -> Result<usize, Refusal>
    ensures { answer_of result ≡ count_found (item_unless_refused config list.now stored.now) }
{
    if config.length_size == 3 {
        return Err(Refusal::PrefixSizeThree);
    }
    if !is_single(list, NAL_OPI) {
        return Err(Refusal::FieldTooWide);
    }
    if !is_single(list, NAL_DCI) {
        return Err(Refusal::FieldTooWide);
    }
    item_len::lengths::item_len(config, stored)
}
