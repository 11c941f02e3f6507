// Internal: the units of a compact record, measured and stored as a unit list.
ghost use Rattle.std.specs.Prelude.{◌≡◌, ◌≤◌, ◌^◌, length};
ghost use Rattle.std.proofs.lemmas.List.Edits.{sets};
ghost use Rattle.parse.specs.Parse.{outcome};
ghost use Rattle.parse.specs.inner.Stores.{bytes_of, Puts};
ghost use Rattle.counted_units.specs.inner.Counted.{units_in_list};
ghost use Rattle.compact.specs.Compact.{config_of};
ghost use Rattle.compact.specs.inner.Units.{record_units};
ghost use Rattle.compact_read.specs.inner.Room.{RoomSays, found_list};

use boxes::place;
use compact::CompactVvcConfig;
use counted_units::units;
use error::{LARGEST_INPUT, Refusal};
use unit_list::{LIST_WIDTH, write};

// Where the units lie in the list: after the version, and the length, complete byte and type of its one array.
pub const UNITS_AT: usize = 7;

// The unit count of a record and the bytes that its units take in a list.
#[derive(Clone, Copy, Debug, PartialEq, Eq)]
pub struct RecordRoom {
    pub count: usize,
    pub room: usize,
}

// The configuration in the first byte of a record.
pub fn config_of(first: u8) -> CompactVvcConfig
    ensures { result ≡ config_of first }
{
    CompactVvcConfig {
        multi_layer_flag: first / 128 == 1,
        length_size: first / 32 % 4 + 1,
    }
}

// Measures the units of a whole record. Refusals: 23, 1, 7.
pub fn record_room(record: &[u8]) -> Result<RecordRoom, Refusal>
    ensures { RoomSays «record».now result }
{
    if LARGEST_INPUT < record.len() {
        return Err(Refusal::InputTooLong);
    }
    let first = place::byte(record, 0);
    if record.is_empty() {
        return Err(Refusal::Truncated);
    }
    let count = usize::from(first) % 32 + 2;
    let Some((room, after)) = units::units_room(record, 1, count, 1) else {
        return Err(Refusal::Truncated);
    };
    if after < record.len() {
        return Err(Refusal::BytesLeftOver);
    }
    Ok(RecordRoom { count, room })
}

// Stores the list of `count` units, which take `room` bytes: version, the head of the one array, the units.
pub fn put_list(record: &[u8], count: usize, room: usize, out: &mut [u8])
    requires { (1 ≤ length «record».now) × (length «record».now ≤ 2 ^ 30)
        × Puts (units_in_list «record».now) (outcome (record_units «record».now count)) out.old 7
        × (room ≡ length (bytes_of (units_in_list «record».now) (outcome (record_units «record».now count)))) }
    ensures { out.new
        ≡ sets out.old 0 (found_list «record».now (outcome (record_units «record».now count))) }
{
    place::put(out, 0, 1);
    write::put_array_head(out, 1, LIST_WIDTH, 2 + room, 0, 0);
    units::put_units(record, 1, count, 1, out, UNITS_AT);
}
