// Internal: the units of a unit list, measured and stored as a compact record.
ghost use Rattle.std.specs.Prelude.{◌≡◌, ◌∷◌, ◌+◌, ◌≤◌, ◌<◌, ◌^◌};
ghost use Rattle.std.proofs.lemmas.List.Edits.{sets};
ghost use Rattle.parse.specs.Answers.{answer_of};
ghost use Rattle.parse.specs.Outcome.{lent_output, counted};
ghost use Rattle.parse.specs.inner.Stores.{bytes_of, Puts};
ghost use Rattle.unit_list.specs.inner.Walks.{left_of};
ghost use Rattle.unit_list.specs.inner.Written.{unit_bytes};
ghost use Rattle.compact.specs.Compact.{compact_first_byte};
ghost use Rattle.compact_write.specs.inner.Sums.{adding_unit, summed, no_units, SumFits, record_length, compact_record_of};

use boxes::{chunks, place};
use compact::CompactVvcConfig;
use error::Refusal;
use unit_list::ListWalk;

// The units so far: their count, the bytes that they take after lengths of one byte, and whether each length fits one byte.
#[derive(Clone, Copy, Debug, PartialEq, Eq)]
pub struct RecordSum {
    pub count: usize,
    pub room: usize,
    pub fits: bool,
}

// One unit of `len` bytes added.
fn add(sum: RecordSum, len: usize) -> RecordSum
    requires { sum.count + sum.room + len < 2 ^ 32 }
    ensures { result ≡ adding_unit len sum }
{
    RecordSum {
        count: sum.count + 1,
        room: sum.room + 1 + len,
        fits: sum.fits && len <= 255,
    }
}

// Measures the units that are left of a walk over a list. Refusal: 21.
fn units_sum(walk: ListWalk) -> Result<RecordSum, Refusal>
    ensures { (answer_of result ≡ summed walk.entry.list.now no_units (left_of walk.entry)) × SumFits result }
{
    let mut walk = walk;
    let mut sum = RecordSum {
        count: 0,
        room: 0,
        fits: true,
    };
    // No `for`: a step can be refused, and `?` ends the loop there.
    while let Some(unit) = walk.next_unit()? {
        sum = add(sum, unit.len);
    }
    Ok(sum)
}

// Stores the units that are left of a walk from place `to` on, each after a length of one byte. They were measured, so no step is refused.
fn put_units(walk: ListWalk, out: &mut [u8], to: usize)
    requires { Puts (unit_bytes 1 walk.list.now) (left_of walk) out.old to }
    ensures { out.new ≡ sets out.old to (bytes_of (unit_bytes 1 walk.entry.list.now) (left_of walk.entry)) }
{
    let list = walk.list;
    let mut walk = walk;
    let mut at = to;
    // No `for`: the walk's type does not know that its units were measured.
    while let Ok(Some(unit)) = walk.next_unit() {
        chunks::put_unit(list, unit, out, at, 1);
        at += 1 + unit.len;
    }
}

// The first byte of a record: flag 1, prefix size minus 1 in 2 bits, unit count minus 2 in 5.
fn first_byte(config: CompactVvcConfig, count: usize) -> u8
    requires { (1 ≤ config.length_size) × (config.length_size ≤ 4) × (2 ≤ count) × (count ≤ 33) }
    ensures { result ≡ compact_first_byte config count }
{
    // `as`: at most 31, so nothing is lost.
    u8::from(config.multi_layer_flag) * 128 + (config.length_size - 1) * 32 + (count - 2) as u8
}

// Stores the record of the `count` units that are left of a walk: the first byte, then the units.
fn store_record(config: CompactVvcConfig, count: usize, walk: ListWalk, out: &mut [u8])
    requires { (1 ≤ config.length_size) × (config.length_size ≤ 4) × (2 ≤ count) × (count ≤ 33)
        × Puts (unit_bytes 1 walk.list.now) (left_of walk) out.old 1 }
    ensures { out.new
        ≡ sets out.old 0 (compact_first_byte config count ∷ bytes_of (unit_bytes 1 walk.entry.list.now) (left_of walk.entry)) }
{
    let first = first_byte(config, count);
    place::put(out, 0, first);
    put_units(walk, out, 1);
}

// The length of the record of units that were measured. Refusals: 4, 8, 9.
fn record_len(config: CompactVvcConfig, sum: RecordSum) -> Result<usize, Refusal>
    requires { sum.room ≤ 2 ^ 32 }
    ensures { answer_of result ≡ record_length config sum }
{
    if place::outside(config.length_size) {
        return Err(Refusal::PrefixSize);
    }
    if sum.count < 2 || 33 < sum.count {
        return Err(Refusal::CompactUnitCount);
    }
    if !sum.fits {
        return Err(Refusal::CompactUnitTooLong);
    }
    Ok(1 + sum.room)
}

// Writes the record of the units that are left of a walk. Refusals: 21, 4, 8, 9, 20.
pub fn put_compact(
    config: CompactVvcConfig,
    walk: ListWalk,
    out: &mut [u8],
) -> Result<usize, Refusal>
    ensures { (answer_of result, out.new)
        ≡ lent_output (counted (compact_record_of config walk.entry.list.now (left_of walk.entry))) out.old }
{
    let sum = units_sum(walk)?;
    let len = record_len(config, sum)?;
    if out.len() < len {
        return Err(Refusal::BufferTooShort);
    }
    store_record(config, sum.count, walk, out);
    Ok(len)
}
