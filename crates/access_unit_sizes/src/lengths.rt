// Internal: the length of the stream of an access unit, measured before any of it is written.
ghost use Rattle.std.specs.Prelude.{◌≡◌};
ghost use Rattle.parse.specs.Answers.{answer_of};
ghost use Rattle.boxes.specs.Walk.{count_found};
ghost use Rattle.access_unit.specs.AccessUnit.{assemble};

use super::sizes;
use access_unit::{StartCodes, kept};
use error::Refusal;
use full::VvcConfig;

// The length of the stream of an access unit. Refusals: 23, 21, 4, then in byte order 1 and 5, 19.
pub fn access_unit_len(
    head: VvcConfig,
    list: &[u8],
    item: &[u8],
    tols: Option<u16>,
    codes: StartCodes,
) -> Result<usize, Refusal>
    ensures { answer_of result ≡ count_found (assemble codes head list.now item.now tols) }
{
    let target = kept::target_of(head, tols);
    let sizes = sizes::measure(list, item, head.length_size, target, codes)?;
    Ok(sizes.len)
}
