// Internal: where unit k of an access unit lies.
ghost use Rattle.std.specs.Prelude.{◌≡◌, ◌+◌, ◌≤◌, length};
ghost use Rattle.boxes.specs.Walk.{found};
ghost use Rattle.parse.specs.Answers.{answer_of};
ghost use Rattle.boxes.specs.Places.{nth_found};
ghost use Rattle.split.specs.inner.Walk.{Onward};
ghost use Rattle.access_unit.specs.inner.Gathered.{Walks, kept_left, sources};
ghost use Rattle.access_unit_nal.specs.Answers.{SourceFits};
ghost use Rattle.access_unit_nal.specs.inner.Kept.{Numbered, kept_stepped, HasKept};

use access_unit::{Source, StartCodes, kept};
use access_unit_sizes::sizes;
use access_unit_sizes::sizes::Sizes;
use boxes::Span;
use error::Refusal;
use split::{NextUnit, walk};

// A unit by its number: among the kept units of the item, or among those of the list.
#[derive(Clone, Copy, Debug, PartialEq, Eq)]
pub enum UnitNumber {
    Kept(usize),
    Listed(usize),
}

// Which unit is unit k of an access unit that was measured: leading units, units of the list, the other kept units; none past the last.
fn number_of(sizes: Sizes, k: usize) -> Option<UnitNumber>
    ensures { Numbered sizes k result }
{
    if k < sizes.lead {
        return Some(UnitNumber::Kept(k));
    }
    let after = k - sizes.lead;
    if after < sizes.listed {
        return Some(UnitNumber::Listed(after));
    }
    let number = k - sizes.listed;
    if number < sizes.kept {
        return Some(UnitNumber::Kept(number));
    }
    None
}

// The next kept unit from a place of an item on, and the place after it; none at the end. Refusals in byte order: 1, 5.
fn next_kept(
    item: &[u8],
    size: usize,
    target: Option<u16>,
    from: usize,
) -> Result<Option<NextUnit>, Refusal>
    requires { Walks size item.now from }
    ensures { (kept_stepped size target item.now result ≡ kept_left size target item.now from) × Onward item.now from result }
{
    let mut at = from;
    // No `for`: a step can be refused, and `?` ends the loop there.
    while let Some(step) = walk::item_step(item, size, at)? {
        if kept::kept_at(item, step.unit, target) {
            return Ok(Some(step));
        }
        at = step.next;
    }
    Ok(None)
}

// Where kept unit k of an item lies; the item has more than k.
fn kept_unit(item: &[u8], size: usize, target: Option<u16>, k: usize) -> Span
    requires { Walks size item.now 0 × HasKept size target item.now k }
    ensures { (result ≡ found (kept_left size target item.now 0) k) × (result.start + result.len ≤ length item.now) }
{
    let mut at: usize = 0;
    let mut skip = k;
    // No `for`: there is no type for a walk over an item whose units were measured.
    while let Some(step) = next_kept(item, size, target, at).unwrap_or(None) {
        if skip == 0 {
            return step.unit;
        }
        skip -= 1;
        at = step.next;
    }
    Span { start: 0, len: 0 }
}

// Where unit k of an access unit lies; none past the last. Refusals: 23, 21, 4, then in byte order 1 and 5, 19.
pub fn source_at(
    list: &[u8],
    item: &[u8],
    length_size: u8,
    target: Option<u16>,
    k: usize,
) -> Result<Option<Source>, Refusal>
    ensures { (answer_of result ≡ nth_found (sources length_size target list.now item.now) k) × SourceFits list.now item.now result }
{
    let sizes = sizes::measure(list, item, length_size, target, StartCodes::Four)?;
    match number_of(sizes, k) {
        Some(UnitNumber::Kept(n)) => {
            let unit = kept_unit(item, usize::from(length_size), target, n);
            Ok(Some(Source::OfItem(unit)))
        }
        Some(UnitNumber::Listed(n)) => {
            let Some(unit) = list_units::nal_unit_at(list, n)? else {
                return Ok(None);
            };
            Ok(Some(Source::OfList(unit)))
        }
        None => Ok(None),
    }
}
