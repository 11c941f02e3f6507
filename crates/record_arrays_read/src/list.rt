// Internal: the arrays of a full record, known to be complete, stored as those of a unit list.
ghost use Rattle.std.specs.Prelude.{◌≡◌, ◌+◌, ◌≤◌, ◌^◌, length};
ghost use Rattle.std.proofs.lemmas.List.Edits.{sets};
ghost use Rattle.parse.specs.Parse.{times, outcome};
ghost use Rattle.parse.specs.inner.Stores.{Puts};
ghost use Rattle.record_arrays.specs.Read.{record_array};
ghost use Rattle.counted_units.specs.inner.Counted.{stored_bytes, StoredAt};
ghost use Rattle.record_arrays_read.specs.inner.Arrays.{array_in_list, arrays_in_list};

use counted_units::{Stored, units};
use record_arrays::Codec;
use unit_list::{ARRAY_HEAD, LIST_WIDTH, write};

// Stores the array at a place of the record: its units first, then its length, complete byte and type before them.
fn put_array(codec: Codec, record: &[u8], at: usize, out: &mut [u8], to: usize) -> Stored
    requires { (length «record».now ≤ 2 ^ 30) × Puts (array_in_list «record».now) (outcome (record_array codec «record».now at)) out.old to }
    ensures { StoredAt array_in_list «record».now (record_array codec «record».now at) out.old to
        out.new result }
{
    let Some((head, units)) = super::arrays::array_head(codec, record, at) else {
        return Stored { from: at, to };
    };
    let stored = units::put_units(record, units, head.count, 2, out, to + ARRAY_HEAD);
    let rest = stored.to - to - LIST_WIDTH;
    let complete = head.reserved_bit * 2 + head.complete;
    write::put_array_head(out, to, LIST_WIDTH, rest, complete, head.unit_type);
    stored
}

// Stores `count` arrays from place `from` of the record.
pub fn put_arrays(codec: Codec, record: &[u8], from: usize, count: usize, out: &mut [u8], to: usize)
    requires { (length «record».now ≤ 2 ^ 30)
        × Puts (arrays_in_list «record».now) (outcome (times count (record_array codec) «record».now from)) out.old to }
    ensures { out.new
        ≡ sets out.old to
        (stored_bytes arrays_in_list «record».now (times count (record_array codec) «record».now from)) }
{
    let mut at = from;
    let mut next = to;
    for _ in 0..count {
        let stored = put_array(codec, record, at, out, next);
        at = stored.from;
        next = stored.to;
    }
}
