// Internal: `count` units of a record, each after a length of `width` bytes, measured and stored as units of a list.
ghost use Rattle.std.specs.Prelude.{◌≡◌, ◌≤◌, ◌^◌, length};
ghost use Rattle.parse.specs.Parse.{times, outcome};
ghost use Rattle.parse.specs.inner.Answers.{there_of};
ghost use Rattle.parse.specs.inner.Stores.{Puts};
ghost use Rattle.boxes.specs.Bytes.{chunk};
ghost use Rattle.counted_units.specs.inner.Counted.{units_in_list, RoomFits, room_taken, StoredAt};

use super::Stored;
use boxes::chunks;
use unit_list::LIST_WIDTH;

// Measures the units from place `from` on: the bytes that they take in a list, and the place after them; none where the record is too short.
pub fn units_room(record: &[u8], from: usize, count: usize, width: usize) -> Option<(usize, usize)>
    requires { (1 ≤ width) × (width ≤ 4) × (length «record».now ≤ 2 ^ 30) × (from ≤ length «record».now) }
    ensures { (there_of result ≡ room_taken units_in_list «record».now 0 (times count (chunk width) «record».now from))
        × RoomFits «record».now from result }
{
    let mut at = from;
    let mut room: usize = 0;
    for _ in 0..count {
        let a = chunks::chunk(record, at, record.len(), width)?;
        room = room + LIST_WIDTH + a.len;
        at = a.start + a.len;
    }
    Some((room, at))
}

// Stores the units from place `from` on, which are all there, each after a length of a list that calls write.
pub fn put_units(
    record: &[u8],
    from: usize,
    count: usize,
    width: usize,
    out: &mut [u8],
    to: usize,
) -> Stored
    requires { (width ≤ 4) × (length «record».now ≤ 2 ^ 30) × (from ≤ length «record».now)
        × Puts (units_in_list «record».now) (outcome (times count (chunk width) «record».now from)) out.old to }
    ensures { StoredAt units_in_list «record».now (times count (chunk width) «record».now from) out.old to
        out.new result }
{
    let mut at = from;
    let mut next = to;
    for _ in 0..count {
        let Some(a) = chunks::chunk(record, at, record.len(), width) else {
            return Stored { from: at, to: next };
        };
        chunks::put_unit(record, a, out, next, LIST_WIDTH);
        next = next + LIST_WIDTH + a.len;
        at = a.start + a.len;
    }
    Stored { from: at, to: next }
}
