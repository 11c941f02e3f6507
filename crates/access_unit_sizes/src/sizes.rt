// Internal: how many units of the list and of the item an access unit has, and their lengths.
ghost use Rattle.std.specs.Prelude.{◌≡◌, false, ◌+◌, ◌≤◌, ◌<◌, ◌^◌, length};
ghost use Rattle.parse.specs.Answers.{answer_of};
ghost use Rattle.parse.specs.Outcome.{accept, and_then};
ghost use Rattle.boxes.specs.Parts.{held};
ghost use Rattle.unit_list.specs.Answers.{list_units};
ghost use Rattle.unit_list.specs.inner.Walks.{left_of};
ghost use Rattle.access_unit.specs.inner.Gathered.{Walks, kept_left};
ghost use Rattle.access_unit_sizes.specs.inner.Sizes.{RoomFor, lead_with, zero_with, adding, adding_unit, adding_kept, item_sum};
ghost use Rattle.access_unit.specs.inner.Gathered.{gather};
ghost use Rattle.access_unit_sizes.specs.inner.Sizes.{list_sum, SmallSum, sizes_of, first_zero, zero_of, saved_of, both_sums};
ghost use Rattle.access_unit_sizes.specs.inner.Sizes.{sizes_with};

use access_unit::lengths::{FOUR_BYTES, saves, type_saves};
use access_unit::{StartCodes, kept};
use boxes::{Span, place};
use error::{LARGEST_INPUT, Refusal};
use nal::header;
use split::walk as items;
use unit_list::ListWalk;

// A sum over units: how many, how many of them lead, and the sum of their lengths. For short codes also how many bytes these save where none of the
// units is the first of the stream, and the zero byte of the first unit, which is not saved where it is.
#[derive(Clone, Copy, Debug, PartialEq, Eq)]
pub struct UnitSum {
    pub count: usize,
    pub lead: usize,
    pub lengths: usize,
    pub saved: usize,
    pub zero_byte: usize,
}

// The sum over no units.
const NO_UNITS: UnitSum = UnitSum {
    count: 0,
    lead: 0,
    lengths: 0,
    saved: 0,
    zero_byte: 0,
};

// The sizes of an access unit: units of the list, kept units of the item, how many of these lead, the zero byte of the first unit's start code (0 if
// its type has four bytes anyway, else 1), and the length of the stream.
#[derive(Clone, Copy, Debug, PartialEq, Eq)]
pub struct Sizes {
    pub listed: usize,
    pub kept: usize,
    pub lead: usize,
    pub zero_byte: usize,
    pub len: usize,
}

// How many units lead when one is added.
fn lead_with(sum: UnitSum, leads: bool) -> usize
    requires { sum.count < 2 ^ 32 }
    ensures { result ≡ lead_with leads sum }
{
    if leads && sum.lead == sum.count {
        return sum.count + 1;
    }
    sum.lead
}

// The zero byte of the first unit when one is added of which short codes save `saves` bytes.
fn zero_with(sum: UnitSum, saves: usize) -> usize
    ensures { result ≡ zero_with saves sum }
{
    if sum.count == 0 {
        return saves;
    }
    sum.zero_byte
}

// One unit added, of which short codes save `saves` bytes.
fn add(sum: UnitSum, saves: usize, len: usize, leads: bool) -> UnitSum
    requires { (saves ≤ 1) × RoomFor len sum }
    ensures { result ≡ adding leads saves len sum }
{
    let lead = lead_with(sum, leads);
    let zero_byte = zero_with(sum, saves);
    UnitSum {
        count: sum.count + 1,
        lead,
        lengths: sum.lengths + len,
        saved: sum.saved + saves,
        zero_byte,
    }
}

// A unit of the item added, if it is kept; AUD and OPI units may lead. Most units are picture data, which is kept and saves a byte with short codes.
fn add_kept(item: &[u8], a: Span, target: Option<u16>, sum: UnitSum) -> UnitSum
    requires { (a.start + a.len ≤ length item.now) × (length item.now ≤ 2 ^ 30) × RoomFor a.len sum }
    ensures { result ≡ adding_kept target item.now a sum }
{
    let unit = place::part(item, a);
    let nal_unit_type = header::type_or_31(unit);
    if nal::is_vcl(nal_unit_type) {
        return add(sum, 1, a.len, false);
    }
    let kind = nal::unit_kind(nal_unit_type);
    let saved = type_saves(nal_unit_type);
    if kept::is_opi(kind) {
        if kept::opi_kept(unit, target) {
            return add(sum, saved, a.len, true);
        }
        return sum;
    }
    add(sum, saved, a.len, kept::may_lead(kind))
}

// A unit of the list added.
fn add_listed(list: &[u8], a: Span, sum: UnitSum) -> UnitSum
    requires { (a.start + a.len ≤ length list.now) × RoomFor a.len sum }
    ensures { result ≡ adding_unit false (held list.now a) a.len sum }
{
    let unit = place::part(list, a);
    let saved = saves(unit);
    add(sum, saved, a.len, false)
}

// The sum over the kept units of an item. Refusals in byte order: 1, 5.
fn item_sum(item: &[u8], size: usize, target: Option<u16>) -> Result<UnitSum, Refusal>
    requires { Walks size item.now 0 }
    ensures { answer_of result ≡ and_then (kept_left size target item.now 0) (λ ks. accept (item_sum item.now ks)) }
{
    let mut at: usize = 0;
    let mut sum = NO_UNITS;
    // No `for`: a step can be refused, and `?` ends the loop there.
    while let Some(step) = items::item_step(item, size, at)? {
        sum = add_kept(item, step.unit, target, sum);
        at = step.next;
    }
    Ok(sum)
}

// The sum over the units that are left of a walk over a list. Refusal: 21.
fn units_sum(walk: ListWalk) -> Result<UnitSum, Refusal>
    ensures { answer_of result ≡ and_then (left_of walk.entry) (λ us. accept (list_sum walk.entry.list.now us)) }
{
    let list = walk.list;
    let mut walk = walk;
    let mut sum = NO_UNITS;
    // No `for`: a step can be refused, and `?` ends the loop there.
    while let Some(unit) = walk.next_unit()? {
        sum = add_listed(list, unit, sum);
    }
    Ok(sum)
}

// The sum over the units of a list. Refusals: 23, 21.
fn list_sum(list: &[u8]) -> Result<UnitSum, Refusal>
    ensures { answer_of result ≡ and_then (list_units list.now) (λ us. accept (list_sum list.now us)) }
{
    units_sum(ListWalk::start(list)?)
}

// The zero byte of the first unit with short codes: of the item's first if one of its units leads or the list has none, else of the list's.
fn first_zero(listed: UnitSum, kept: UnitSum) -> usize
    ensures { result ≡ first_zero listed kept }
{
    if 0 < kept.lead || listed.count == 0 {
        return kept.zero_byte;
    }
    listed.zero_byte
}

// The zero byte of the first unit under a choice of start codes: none with four bytes throughout.
fn zero_of(listed: UnitSum, kept: UnitSum, codes: StartCodes) -> usize
    ensures { result ≡ zero_of codes listed kept }
{
    match codes {
        StartCodes::Four => 0,
        StartCodes::Short => first_zero(listed, kept),
    }
}

// How many bytes a choice saves where none of the units is the first.
fn saved_of(listed: UnitSum, kept: UnitSum, codes: StartCodes) -> usize
    requires { SmallSum listed × SmallSum kept }
    ensures { result ≡ saved_of codes listed kept }
{
    match codes {
        StartCodes::Four => 0,
        StartCodes::Short => listed.saved + kept.saved,
    }
}

// The sizes of an access unit from the sums over its list and its item. Refusal: 19.
fn both(listed: UnitSum, kept: UnitSum, codes: StartCodes) -> Result<Sizes, Refusal>
    requires { SmallSum listed × SmallSum kept }
    ensures { answer_of result ≡ both_sums codes listed kept }
{
    let count = listed.count + kept.count;
    if count == 0 {
        return Err(Refusal::NothingToWrite);
    }
    let zero_byte = zero_of(listed, kept, codes);
    let saved = saved_of(listed, kept, codes);
    let four = FOUR_BYTES * count + listed.lengths + kept.lengths;
    Ok(Sizes {
        listed: listed.count,
        kept: kept.count,
        lead: kept.lead,
        zero_byte,
        len: four + zero_byte - saved,
    })
}

// The sizes of an access unit whose list has the sum `listed`. Refusals: 4, then in byte order 1 and 5, 19.
fn measure_item(
    item: &[u8],
    length_size: u8,
    target: Option<u16>,
    codes: StartCodes,
    listed: UnitSum,
) -> Result<Sizes, Refusal>
    requires { (length item.now ≤ 2 ^ 30) × SmallSum listed }
    ensures { answer_of result ≡ sizes_with codes length_size target item.now listed }
{
    if place::outside(length_size) {
        return Err(Refusal::PrefixSize);
    }
    let kept = item_sum(item, usize::from(length_size), target)?;
    both(listed, kept, codes)
}

// The sizes of an access unit. Refusals: 23, 21, 4, then in byte order 1 and 5, 19.
pub fn measure(
    list: &[u8],
    item: &[u8],
    length_size: u8,
    target: Option<u16>,
    codes: StartCodes,
) -> Result<Sizes, Refusal>
    ensures { answer_of result ≡ and_then (gather length_size target list.now item.now)
        (λ g. accept (sizes_of codes list.now item.now g)) }
{
    if LARGEST_INPUT < item.len() {
        return Err(Refusal::InputTooLong);
    }
    let listed = list_sum(list)?;
    measure_item(item, length_size, target, codes, listed)
}
