// Unit k of the access unit of a still: its place, and the part of the list or item where it lies (SCOPE 3.12).
#![tactic(auto)]

pub mod source;

ghost use Rattle.std.specs.Prelude.{◌≡◌};
ghost use Rattle.parse.specs.Answers.{answer_of};
ghost use Rattle.boxes.specs.Places.{nth_found};
ghost use Rattle.access_unit.specs.AccessUnit.{access_unit};
ghost use Rattle.access_unit.specs.Answers.{source_at, PartOfEither};
ghost use Rattle.access_unit_nal.specs.Answers.{SourceFits};

use access_unit::{Source, kept};
use boxes::place;
use error::Refusal;
use full::VvcConfig;

// Where unit k of the access unit lies, counted from 0: in the list or in the item; none past the last.
// Refusals: 23, 21, 4, then in byte order 1 and 5, 19.
pub fn access_unit_nal_at(
    head: VvcConfig,
    list: &[u8],
    item: &[u8],
    tols: Option<u16>,
    k: usize,
) -> Result<Option<Source>, Refusal>
    ensures { (answer_of result ≡ nth_found (access_unit head list.now item.now tols) k) × SourceFits list.now item.now result }
{
    let target = kept::target_of(head, tols);
    source::source_at(list, item, head.length_size, target, k)
}

// Unit k of the access unit as a part of the list or of the item; the list's empty part past the last unit and on a refusal.
// Refusals: 23, 21, 4, then in byte order 1 and 5, 19.
pub fn access_unit_nal<'a>(
    head: VvcConfig,
    list: &'a [u8],
    item: &'a [u8],
    tols: Option<u16>,
    k: usize,
) -> &'a [u8]
    ensures { PartOfEither result list.entry item.entry
        (source_at (access_unit head list.now item.now tols) k) }
{
    let Some(source) = access_unit_nal_at(head, list, item, tols, k).unwrap_or(None) else {
        return place::part_at(list, Ok(None));
    };
    match source {
        Source::OfList(a) => place::part(list, a),
        Source::OfItem(a) => place::part(item, a),
    }
}
