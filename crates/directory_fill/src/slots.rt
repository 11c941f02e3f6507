// Internal: stores the entries of a lent directory.
ghost use Rattle.std.specs.Prelude.{◌≡◌, ◌≤◌, length, take};
ghost use Rattle.parse.specs.Outcome.{overlay};
ghost use Rattle.directory_fill.specs.inner.Entries.{entries_in, entries_left};

use directory::Entry;
use unit_list::ListWalk;

// Stores the entries of the first units that are left of a walk, one in each slot. As many units are left, so no step is refused.
fn fill_slots(walk: ListWalk, slots: &mut [Entry])
    requires { length slots.old ≤ length (entries_left walk) }
    ensures { slots.new ≡ take (length slots.old) (entries_left walk.entry) }
{
    let mut walk = walk;
    for slot in slots.iter_mut() {
        let Ok(Some(unit)) = walk.next_unit() else {
            return;
        };
        *slot = Entry {
            unit_type: walk.cursor.unit_type,
            offset: unit.start,
            len: unit.len,
        };
    }
}

// Stores the first n entries of a list, which has as many, in a directory that has room for them.
pub fn fill_entries(list: &[u8], dir: &mut [Entry], n: usize)
    requires { (n ≤ length dir.old) × (n ≤ length (entries_in list.now)) }
    ensures { dir.new ≡ overlay (take n (entries_in list.now)) dir.old }
{
    let Ok(walk) = ListWalk::start(list) else {
        return;
    };
    fill_slots(walk, &mut dir[..n]);
}
