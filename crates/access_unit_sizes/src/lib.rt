// How many units the access unit of a still has, and how long its stream is (SCOPE 3.12).
#![tactic(auto)]

pub mod lengths;
pub mod sizes;

ghost use Rattle.std.specs.Prelude.{◌≡◌};
ghost use Rattle.parse.specs.Answers.{answer_of};
ghost use Rattle.boxes.specs.Walk.{count_found};
ghost use Rattle.access_unit.specs.AccessUnit.{access_unit};

use access_unit::{StartCodes, kept};
use error::Refusal;
use full::VvcConfig;

// The number of units of the access unit. Refusals: 23, 21, 4, then in byte order 1 and 5, 19.
pub fn access_unit_count(
    head: VvcConfig,
    list: &[u8],
    item: &[u8],
    tols: Option<u16>,
) -> Result<usize, Refusal>
    ensures { answer_of result ≡ count_found (access_unit head list.now item.now tols) }
{
    let target = kept::target_of(head, tols);
    let sizes = sizes::measure(list, item, head.length_size, target, StartCodes::Four)?;
    Ok(sizes.listed + sizes.kept)
}
