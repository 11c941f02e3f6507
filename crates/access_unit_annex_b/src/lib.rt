// Assemble: the access unit of a still as an Annex B stream (SCOPE 3.12).
#![tactic(auto)]

pub mod stream;

ghost use Rattle.std.specs.Prelude.{◌≡◌};
ghost use Rattle.parse.specs.Outcome.{lent_output, counted};
ghost use Rattle.parse.specs.Answers.{answer_of};
ghost use Rattle.access_unit.specs.AccessUnit.{assemble};

use access_unit::{StartCodes, kept};
use access_unit_sizes::sizes;
use error::Refusal;
use full::VvcConfig;

// Writes the access unit of a head, a list and an item as a stream, each unit after its start code.
// Refusals: 23, 21, 4, then in byte order 1 and 5, 19, 20.
pub fn access_unit_annex_b(
    head: VvcConfig,
    list: &[u8],
    item: &[u8],
    tols: Option<u16>,
    codes: StartCodes,
    out: &mut [u8],
) -> Result<usize, Refusal>
    ensures { (answer_of result, out.new)
        ≡ lent_output (counted (assemble codes head list.now item.now tols)) out.old }
{
    let target = kept::target_of(head, tols);
    let sizes = sizes::measure(list, item, head.length_size, target, codes)?;
    if out.len() < sizes.len {
        return Err(Refusal::BufferTooShort);
    }
    stream::put_stream(list, item, head.length_size, target, codes, sizes, out);
    Ok(sizes.len)
}
