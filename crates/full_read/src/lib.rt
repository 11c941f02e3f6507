// Full read: a full record read into a head and a unit list (SCOPE 3.10), and the same strictly (SCOPE 4.10).
#![tactic(auto)]

pub mod head;

ghost use Rattle.std.specs.Prelude.{◌≡◌};
ghost use Rattle.parse.specs.Answers.{answer_of};
ghost use Rattle.parse.specs.Outcome.{lent_output};
ghost use Rattle.full.specs.Read.{parse_full};
ghost use Rattle.full.specs.Strict.{parse_strict};

use error::{LARGEST_INPUT, Refusal};
use full::VvcConfig;
use record_arrays::{Codec, ParsedRecord};
use record_arrays_read::arrays;
use record_rules::rules;

// A full record that was read.
pub type FullRead = ParsedRecord<VvcConfig>;

// Reads a full record (the original's `VvcConfig::parse`); its arrays go to the output as a unit list.
// Refusals: 23, then in byte order 3, 1 and 2, then 20.
// What both records share is `read_list`; head, codec and definition differ.
pub fn parse(record: &[u8], out: &mut [u8]) -> Result<FullRead, Refusal>
    ensures { (answer_of result, out.new) ≡ lent_output (parse_full «record».now) out.old }
{
    if LARGEST_INPUT < record.len() {
        return Err(Refusal::InputTooLong);
    }
    let (head, at) = head::read_head(record)?;
    let (consumed, list_length) = arrays::read_list(Codec::Vvc, record, at, out)?;
    Ok(ParsedRecord {
        head,
        consumed,
        list_length,
    })
}

// Reads a full record as `parse` does, if its reserved bits are the standard's and its arrays have types that a record may have. The rules are
// tested before a byte is written. Refusals: 23, then in byte order 3, 1 and 2, then 25, 26, 20.
pub fn parse_strict(record: &[u8], out: &mut [u8]) -> Result<FullRead, Refusal>
    ensures { (answer_of result, out.new) ≡ lent_output (parse_strict «record».now) out.old }
{
    // `parse` refuses a record that is too long.
    if LARGEST_INPUT < record.len() {
        return parse(record, out);
    }
    // The steps of `parse`, with the rules between them: so the head, of 1.1 KB, is read once.
    let (head, end) = head::read_head(record)?;
    rules::check(record, head, end)?;
    let (consumed, list_length) = arrays::read_list(Codec::Vvc, record, end, out)?;
    Ok(ParsedRecord {
        head,
        consumed,
        list_length,
    })
}
