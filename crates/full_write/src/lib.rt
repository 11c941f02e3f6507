// Full write: a full record from a head and a unit list, and its length without writing it (SCOPE 3.9).
#![tactic(auto)]

pub mod head;

ghost use Rattle.std.specs.Prelude.{◌≡◌};
ghost use Rattle.parse.specs.Outcome.{lent_output, counted};
ghost use Rattle.parse.specs.Answers.{answer_of};
ghost use Rattle.boxes.specs.Walk.{count_found};
ghost use Rattle.full.specs.Write.{serialize_full};

use error::Refusal;
use full::VvcConfig;
use record_arrays::Codec;
use record_arrays_write::record;

// The length of the record of a head and a list. Refusals: 23, 21, 3, 22.
pub fn record_len(head: VvcConfig, list: &[u8]) -> Result<usize, Refusal>
    ensures { answer_of result ≡ count_found (serialize_full head list.now) }
{
    let size = head::head_size(head);
    let layout = record::record_size(Codec::Vvc, list, size)?;
    Ok(layout.len)
}

// Writes the record of a head and a list (the original's `VvcConfig::serialize`). Refusals: 23, 21, 3, 22, 20.
// What both records share is `put_after_head`; head, codec and definition differ.
pub fn serialize(head: VvcConfig, list: &[u8], out: &mut [u8]) -> Result<usize, Refusal>
    ensures { (answer_of result, out.new) ≡ lent_output (counted (serialize_full head list.now)) out.old }
{
    let size = head::head_size(head);
    let len = record::put_after_head(Codec::Vvc, list, size, out)?;
    head::put_head(out, head);
    Ok(len)
}
