// HEVC write: an HEVC record from a head and a unit list (SCOPE 4.11).
#![tactic(auto)]

pub mod head;

ghost use Rattle.std.specs.Prelude.{◌≡◌};
ghost use Rattle.parse.specs.Outcome.{lent_output, counted};
ghost use Rattle.parse.specs.Answers.{answer_of};
ghost use Rattle.hvcc.specs.Write.{serialize_hevc};

use error::Refusal;
use hvcc::HevcConfig;
use record_arrays::Codec;
use record_arrays_write::record;

// Writes the record of a head and a list (the original's `HevcConfig::serialize`). Refusals: 23, 21, 22, 20.
// What both records share is `put_after_head`; head, codec and definition differ.
pub fn serialize(head: HevcConfig, list: &[u8], out: &mut [u8]) -> Result<usize, Refusal>
    ensures { (answer_of result, out.new) ≡ lent_output (counted (serialize_hevc head list.now)) out.old }
{
    let size = head::head_size(head);
    let len = record::put_after_head(Codec::Hevc, list, size, out)?;
    head::put_head(out, head);
    Ok(len)
}
