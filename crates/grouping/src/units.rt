// Internal: the units of a list with the types in their headers.
ghost use Rattle.std.specs.Prelude.{◌≡◌, true, ◌+◌, ◌-◌, ◌≤◌, length};
ghost use Rattle.std.proofs.Props.{props};
ghost use Rattle.std.specs.Iterator.{at_most};
ghost use Rattle.boxes.specs.Parts.{held};
ghost use Rattle.nal.specs.Header.{largest_unit_type, type_or31};
ghost use Rattle.nal.specs.Kinds.{is_record_type};
ghost use Rattle.unit_list.specs.Answers.{list_units};
ghost use Rattle.unit_list.specs.inner.Walk.{Fits, units_left, two_or_four-prop};
ghost use Rattle.grouping.specs.Grouping.{having_type, first_element};
ghost use Rattle.grouping.specs.inner.Units.{Readable, found_unit, FoundPart, held_units};

use boxes::{Span, place};
use error::Refusal;
use list_units::{Wanted, find};
use nal::header;
use unit_list::{ListCursor, ListWalk, walk};

// The units of a list after a cursor, all of which read. A copy walks over them anew.
#[derive(Clone, Copy, Debug)]
pub struct TypedUnits<'a> {
    pub list: &'a [u8],
    pub cursor: ListCursor,
    pub ghost readable: { Readable list.now cursor } by { Prim.hlevel (two_or_four-prop, props) },
}

// The type of the unit at span a; 31 if byte 1 is absent.
fn unit_type(list: &[u8], a: Span) -> u8
    requires { a.start + a.len ≤ length list.now }
    ensures { (result ≡ type_or31 (held list.now a)) × (result ≤ largest_unit_type) }
{
    let unit = place::part(list, a);
    header::type_or_31(unit)
}

impl<'a> TypedUnits<'a> {
    ghost use Rattle.std.specs.Prelude.{IfOk};
    ghost use Rattle.grouping.specs.inner.TypedUnits.{units_of, started_units};

    // The units after a cursor if all of them read. Refusal: 21.
    fn after(list: &'a [u8], cursor: ListCursor) -> Result<TypedUnits<'a>, Refusal>
        requires { Fits list.now cursor }
        ensures { (started_units result ≡ held_units list.now (units_left list.now cursor))
            × IfOk result (λ units. units.list.now ≡ list.now) }
    {
        find::find_from(ListWalk { list, cursor }, Wanted::Every, 0)?;
        Ok(TypedUnits { list, cursor })
    }

    // The units of a list, all of which read. Refusals: 23, 21.
    pub fn start(list: &'a [u8]) -> Result<TypedUnits<'a>, Refusal>
        ensures { (started_units result ≡ held_units list.now (list_units list.now))
            × IfOk result (λ units. units.list.now ≡ list.now) }
    {
        let first = walk::start(list)?;
        TypedUnits::after(list, first)
    }

    // The first unit of a record kind, if there is one; t is the type of that kind.
    pub fn first_having(self, t: u8) -> Option<&'a [u8]>
        requires { is_record_type t ≡ true }
        ensures { (found_unit result ≡ first_element (having_type t (units_of self.entry)))
            × FoundPart self.entry.list result }
    {
        for (unit, found) in self {
            if header::is_record_of(found, t) {
                return Some(place::part(self.list, unit));
            }
        }
        None
    }
}

// The next unit and its type. All units read, so no step is refused.
impl<'a> Iterator for TypedUnits<'a> {
    ghost use Rattle.grouping.specs.inner.TypedUnits.{Steps};

    type Item = (Span, u8);

    ghost next_gives = { Steps };

    ghost remaining = { λ u. at_most (length u.list.now - u.cursor.at) };

    fn next(&mut self) -> Option<(Span, u8)> {
        let Ok(Some((unit, next))) = walk::step(self.list, self.cursor) else {
            return None;
        };
        let t = unit_type(self.list, unit);
        self.cursor = next;
        Some((unit, t))
    }
}
