// Internal: the head of an array, and the arrays of a full record read into a unit list.
ghost use Rattle.std.specs.Prelude.{◌≡◌, ◌+◌, ◌≤◌, ◌^◌, length, if◌then◌else◌};
ghost use Rattle.parse.specs.Answers.{answer_of};
ghost use Rattle.parse.specs.Outcome.{lent_output};
ghost use Rattle.parse.specs.inner.Answers.{there_of};
ghost use Rattle.boxes.specs.Bytes.{be};
ghost use Rattle.record_arrays.specs.Read.{holds_one};
ghost use Rattle.record_arrays.specs.inner.Counts.{count_len};
ghost use Rattle.record_arrays_read.specs.inner.Arrays.{array_head, ArrayHeadFits, counted_arrays, list_given};

use super::{ArrayHead, list, room};
use boxes::place;
use error::Refusal;
use record_arrays::{Codec, array};

// The number of units of an array of the type, from the count at place `at`; 1 where there is no count.
fn unit_count(codec: Codec, record: &[u8], at: usize, unit_type: u8) -> usize
    requires { at + count_len codec unit_type ≤ length «record».now }
    ensures { result ≡ (if holds_one codec unit_type then 1 else be «record».now at 2) }
{
    if array::holds_one(codec, unit_type) {
        return 1;
    }
    place::number(record, at, 2)
}

// The head of the array at place `at`, and the place after it; none where the record is too short.
pub fn array_head(codec: Codec, record: &[u8], at: usize) -> Option<(ArrayHead, usize)>
    requires { length «record».now ≤ 2 ^ 30 }
    ensures { (there_of result ≡ array_head codec «record».now at) × ArrayHeadFits «record».now at result }
{
    let first = *record.get(at)?;
    let complete = array::complete_of(first);
    let reserved_bit = array::reserved_of(codec, first);
    let unit_type = array::unit_type_of(codec, first);
    let units = at + 1 + array::count_len(codec, unit_type);
    if record.len() < units {
        return None;
    }
    let count = unit_count(codec, record, at + 1, unit_type);
    let head = ArrayHead {
        complete,
        reserved_bit,
        unit_type,
        count,
    };
    Some((head, units))
}

// Writes the unit list of the arrays whose count is at place `at`, and returns the place after them and the length of the list; they are measured
// before anything is written. Refusals: 1, 20.
pub fn read_list(
    codec: Codec,
    record: &[u8],
    at: usize,
    out: &mut [u8],
) -> Result<(usize, usize), Refusal>
    requires { length «record».now ≤ 2 ^ 30 }
    ensures { (answer_of result, out.new)
        ≡ lent_output (list_given «record».now (counted_arrays codec «record».now at)) out.old }
{
    let count = usize::from(*record.get(at).ok_or(Refusal::Truncated)?);
    let (room, consumed) = room::arrays_room(codec, record, at + 1, count).ok_or(
        Refusal::Truncated,
    )?;
    let len = 1 + room;
    if out.len() < len {
        return Err(Refusal::BufferTooShort);
    }
    place::put(out, 0, 1);
    list::put_arrays(codec, record, at + 1, count, out, 1);
    Ok((consumed, len))
}
