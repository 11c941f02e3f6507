// Internal: counts the wanted units of a list and finds one of them, in one walk.
ghost use Rattle.std.specs.Prelude.{◌≡◌, ◌<◌, ◌^◌};
ghost use Rattle.unit_list.specs.inner.Walks.{typed_left};
ghost use Rattle.list_units.specs.inner.Find.{wants, Finds, wanted_of, wanted_list, seeing};

use super::Wanted;
use boxes::Span;
use error::Refusal;
use unit_list::ListWalk;

// The wanted units passed so far: how many, and where number k lies, if it was passed.
#[derive(Clone, Copy, Debug, PartialEq, Eq)]
pub struct Seen {
    pub count: usize,
    pub unit: Option<Span>,
}

// Whether a unit in an array of type `t` is wanted.
fn wanted(w: Wanted, t: u8) -> bool
    ensures { result ≡ wants w t }
{
    match w {
        Wanted::Every => true,
        Wanted::OfType(x) => t == x,
    }
}

// Counts one more unit, if it is wanted.
fn see(seen: Seen, w: Wanted, k: usize, t: u8, a: Span) -> Seen
    requires { seen.count < 2 ^ 30 }
    ensures { result ≡ seeing w k t a seen }
{
    if !wanted(w, t) {
        return seen;
    }
    let number = seen.count;
    let unit = if number == k { Some(a) } else { seen.unit };
    Seen {
        count: number + 1,
        unit,
    }
}

// Counts the wanted units that are left of a walk, and finds number k. Refusal: 21.
pub fn find_from(walk: ListWalk, w: Wanted, k: usize) -> Result<Seen, Refusal>
    ensures { Finds walk.entry.list.now (wanted_of w (typed_left walk.entry)) k result }
{
    let mut walk = walk;
    let mut seen = Seen {
        count: 0,
        unit: None,
    };
    // No `for`: a step can be refused, and `?` ends the loop there.
    while let Some(unit) = walk.next_unit()? {
        seen = see(seen, w, k, walk.cursor.unit_type, unit);
    }
    Ok(seen)
}

// Counts the wanted units of a list, and finds number k. Refusals: 23, 21.
pub fn find(list: &[u8], w: Wanted, k: usize) -> Result<Seen, Refusal>
    ensures { Finds list.now (wanted_list w list.now) k result }
{
    let walk = ListWalk::start(list)?;
    find_from(walk, w, k)
}
