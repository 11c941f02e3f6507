// Internal: the bytes that the arrays of a full record take in a unit list.
ghost use Rattle.std.specs.Prelude.{◌≡◌, ◌≤◌, ◌^◌, length};
ghost use Rattle.parse.specs.Parse.{times};
ghost use Rattle.parse.specs.inner.Answers.{there_of};
ghost use Rattle.record_arrays.specs.Read.{record_array};
ghost use Rattle.counted_units.specs.inner.Counted.{RoomFits, room_taken};
ghost use Rattle.record_arrays_read.specs.inner.Arrays.{array_in_list, arrays_in_list};

use counted_units::units;
use record_arrays::Codec;
use unit_list::ARRAY_HEAD;

// The bytes that the array at place `at` takes in a list, and the place after it; none where the record is too short.
pub fn array_room(codec: Codec, record: &[u8], at: usize) -> Option<(usize, usize)>
    requires { length «record».now ≤ 2 ^ 30 }
    ensures { (there_of result ≡ room_taken array_in_list «record».now 0 (record_array codec «record».now at))
        × RoomFits «record».now at result }
{
    let (head, units) = super::arrays::array_head(codec, record, at)?;
    let (room, ends) = units::units_room(record, units, head.count, 2)?;
    Some((ARRAY_HEAD + room, ends))
}

// The same for `count` arrays from place `from` on.
pub fn arrays_room(codec: Codec, record: &[u8], from: usize, count: usize) -> Option<(usize, usize)>
    requires { (length «record».now ≤ 2 ^ 30) × (from ≤ length «record».now) }
    ensures { (there_of result ≡ room_taken arrays_in_list «record».now 0 (times count (record_array codec) «record».now from))
        × RoomFits «record».now from result }
{
    let mut at = from;
    let mut room: usize = 0;
    for _ in 0..count {
        let (more, ends) = array_room(codec, record, at)?;
        room += more;
        at = ends;
    }
    Some((room, at))
}
