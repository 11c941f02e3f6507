// HEVC read: an HEVC record read into a head and a unit list (SCOPE 4.11).
#![tactic(auto)]

pub mod head;

ghost use Rattle.std.specs.Prelude.{◌≡◌};
ghost use Rattle.parse.specs.Answers.{answer_of};
ghost use Rattle.parse.specs.Outcome.{lent_output};
ghost use Rattle.hvcc.specs.Read.{parse_hevc};

use error::{LARGEST_INPUT, Refusal};
use hvcc::HevcConfig;
use record_arrays::{Codec, ParsedRecord};
use record_arrays_read::arrays;

// An HEVC record that was read.
pub type HevcRead = ParsedRecord<HevcConfig>;

// Reads an HEVC record (the original's `HevcConfig::parse`); its arrays go to the output as a unit list.
// Refusals: 23, then in byte order 1 and 27, then 20.
// What both records share is `read_list`; head, codec and definition differ.
pub fn parse(record: &[u8], out: &mut [u8]) -> Result<HevcRead, Refusal>
    ensures { (answer_of result, out.new) ≡ lent_output (parse_hevc «record».now) out.old }
{
    if LARGEST_INPUT < record.len() {
        return Err(Refusal::InputTooLong);
    }
    let (head, at) = head::read_head(record)?;
    let (consumed, list_length) = arrays::read_list(Codec::Hevc, record, at, out)?;
    Ok(ParsedRecord {
        head,
        consumed,
        list_length,
    })
}
