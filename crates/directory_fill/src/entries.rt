// Internal: how many units of a list there are, in all and of each type.
ghost use Rattle.std.specs.Prelude.{◌≡◌};
ghost use Rattle.parse.specs.Answers.{answer_of};
ghost use Rattle.parse.specs.Outcome.{and_then};
ghost use Rattle.boxes.specs.Walk.{count_found};
ghost use Rattle.directory.specs.Directory.{list_entries, fitting, totals_of};
ghost use Rattle.directory_fill.specs.inner.Entries.{entries_left, LeftReads, LeftAdds, totals_plus, CountedOf, totals_for};

use directory::TYPES;
use error::Refusal;
use unit_list::ListWalk;

// How many entries a list has, if a directory of `room` entries is long enough. Refusals: 23, 21, 28.
pub fn fitting(list: &[u8], room: usize) -> Result<usize, Refusal>
    ensures { answer_of result ≡ count_found (and_then (list_entries list.now) (fitting room)) }
{
    let n = list_units::nal_count(list)?;
    if room < n {
        return Err(Refusal::DirectoryTooShort);
    }
    Ok(n)
}

// Adds the units that are left of a walk to the totals of their types. All of them read, so no step is refused.
fn add_units(walk: ListWalk, totals: &mut [usize; TYPES])
    requires { LeftAdds walk totals.old }
    ensures { totals.new ≡ totals_plus totals.old (entries_left walk.entry) }
{
    let mut walk = walk;
    // No `for`: the walk's type does not know that its units were measured.
    while let Ok(Some(_)) = walk.next_unit() {
        let t = usize::from(walk.cursor.unit_type);
        totals[t] += 1;
    }
}

// Sets the totals to those of the units that are left of a walk, all of which read.
pub fn put_totals(walk: ListWalk, totals: &mut [usize; TYPES])
    requires { LeftReads walk }
    ensures { totals.new ≡ totals_of (entries_left walk.entry) }
{
    *totals = [0; TYPES];
    add_units(walk, totals);
}

// Sets the totals to those of a list, by the answer of counting it: where that is a refusal they stay as they are.
pub fn put_counted_totals(list: &[u8], counted: Result<usize, Refusal>, totals: &mut [usize; TYPES])
    requires { CountedOf list.now (answer_of counted) }
    ensures { totals.new ≡ totals_for (answer_of counted) list.now totals.old }
{
    let Ok(_) = counted else {
        return;
    };
    let Ok(walk) = ListWalk::start(list) else {
        return;
    };
    put_totals(walk, totals);
}

#[cfg(test)]
mod tests {
    use super::*;

    // How many units of types 15 and 16 a list of three units at most has, and how many its walk has left after the first unit.
    fn totals_twice(list: &[u8]) -> Result<(usize, usize, usize, usize), Refusal> {
        fitting(list, 3)?;
        let mut walk = ListWalk::start(list)?;
        let mut whole = [9; TYPES];
        put_totals(walk, &mut whole);
        let mut left = whole;
        if let Some(_) = walk.next_unit()? {
            put_totals(walk, &mut left);
        }
        Ok((whole[15], whole[16], left[15], left[16]))
    }

    // A list of version 02: two units of type 15 (SPS) and one of type 16 (PPS).
    #[test]
    fn totals_of_what_is_left() -> Result<(), &'static str> {
        let list = [2, 0, 8, 1, 15, 0, 1, 81, 0, 1, 82, 0, 5, 1, 16, 0, 1, 83];
        match totals_twice(&list) {
            Ok((2, 1, 1, 1)) => Ok(()),
            Ok(_) => Err("other totals"),
            Err(_) => Err("the list is refused"),
        }
    }
}
