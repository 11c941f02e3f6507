// Internal: the walk over the units of a list, array after array.
ghost use Rattle.std.specs.Prelude.{◌≡◌};
ghost use Rattle.unit_list.specs.UnitList.{length_width, decode};
ghost use Rattle.unit_list.specs.inner.Walk.{Fits, StartFits, array_units_from, units_stepped};
ghost use Rattle.unit_list.specs.inner.Walk.{UnitStepFits, arrays_from, arrays_stepped, ArrayStepFits, typed_list};
ghost use Rattle.unit_list.specs.inner.Walks.{Starts, UnitFound, ArrayUnitFound, ArrayFound, Stays};
ghost use Rattle.unit_list.specs.inner.Walk.{started, arrays_started, typed_units_from, stepped, StepFits};

use super::{LARGEST_TYPE, ListCursor, ListWalk, length};
use boxes::{Span, place};
use error::{LARGEST_INPUT, Refusal};

// How many bytes a length has in a list of a version; 0 for another version than 01 and 02.
pub fn length_width(version: u8) -> usize
    ensures { result ≡ length_width version }
{
    match version {
        1 => 4,
        2 => 2,
        _ => 0,
    }
}

// The cursor after the version, before the first array. Refusals: 23, 21 for no byte or another version.
pub fn start(list: &[u8]) -> Result<ListCursor, Refusal>
    ensures { (started list.now result ≡ typed_list list.now)
        × (arrays_started list.now result ≡ decode list.now) × StartFits list.now result }
{
    if LARGEST_INPUT < list.len() {
        return Err(Refusal::InputTooLong);
    }
    let width = length_width(place::byte(list, 0));
    if width == 0 {
        return Err(Refusal::UnitList);
    }
    Ok(ListCursor {
        at: 1,
        end: 1,
        unit_type: 0,
        width,
    })
}

// The array after a cursor's end: its complete byte, and the cursor before its units, which are not read; none at the end. Refusal: 21.
fn array_step(list: &[u8], c: ListCursor) -> Result<Option<(u8, ListCursor)>, Refusal>
    requires { Fits list.now c }
    ensures { (arrays_stepped list.now result ≡ arrays_from list.now c) × ArrayStepFits list.now c result }
{
    let from = c.end + c.width;
    if list.len() < from + 2 {
        if c.end == list.len() {
            return Ok(None);
        }
        return Err(Refusal::UnitList);
    }
    let end = from + length::of_array(list, c.end, from, c.width);
    if end < from + 2 {
        return Err(Refusal::UnitList);
    }
    if list.len() < end {
        return Err(Refusal::UnitList);
    }
    let complete = list[from];
    let unit_type = list[from + 1];
    if 3 < complete {
        return Err(Refusal::UnitList);
    }
    if LARGEST_TYPE < unit_type {
        return Err(Refusal::UnitList);
    }
    let first = ListCursor {
        at: from + 2,
        end,
        unit_type,
        width: c.width,
    };
    Ok(Some((complete, first)))
}

// The unit at a cursor, before its array's end, and the cursor after it; none at that end. Refusal: 21.
#[inline(always)]
fn unit_step(list: &[u8], c: ListCursor) -> Result<Option<(Span, ListCursor)>, Refusal>
    requires { Fits list.now c }
    ensures { (units_stepped list.now result ≡ array_units_from list.now c) × UnitStepFits list.now c result }
{
    if c.at == c.end {
        return Ok(None);
    }
    let from = c.at + c.width;
    if c.end < from {
        return Err(Refusal::UnitList);
    }
    let len = length::of_unit(list, c.at, from, c.width);
    let end = from + len;
    if c.end < end {
        return Err(Refusal::UnitList);
    }
    let next = ListCursor {
        at: end,
        end: c.end,
        unit_type: c.unit_type,
        width: c.width,
    };
    Ok(Some((Span { start: from, len }, next)))
}

// The next unit after a cursor, and the cursor after it, which has the type of the unit's array; none at the end. Arrays without units left are passed
// over. Refusal: 21. It is put into every loop over units: as a call it takes two to five times as long.
#[inline(always)]
pub fn step(list: &[u8], c: ListCursor) -> Result<Option<(Span, ListCursor)>, Refusal>
    requires { Fits list.now c }
    ensures { (stepped list.now result ≡ typed_units_from list.now c) × StepFits list.now c result }
{
    let mut here = c;
    // No `for`: each turn goes to the array after the cursor's, and a step can be refused.
    while here.at == here.end {
        let Some((_, first)) = array_step(list, here)? else {
            return Ok(None);
        };
        here = first;
    }
    unit_step(list, here)
}

impl<'a> ListWalk<'a> {
    // The walk before the first unit of a list. Refusals: 23, 21 for no byte or another version.
    pub fn start(list: &'a [u8]) -> Result<ListWalk<'a>, Refusal>
        ensures { Starts list.entry result }
    {
        let cursor = start(list)?;
        Ok(ListWalk { list, cursor })
    }

    // The next unit, whose type is that of the cursor after it; none at the end. Arrays without units left are passed over. Refusal: 21.
    // Where no unit is found, the walk stays where it is. It is put into every loop, as `step` is.
    #[inline(always)]
    pub fn next_unit(&mut self) -> Result<Option<Span>, Refusal>
        ensures same { self.new.list ≡ self.old.list }
        ensures steps { UnitFound self.old self.new result }
        ensures stays { Stays self.old self.new result }
    {
        let Some((unit, next)) = step(self.list, self.cursor)? else {
            return Ok(None);
        };
        self.cursor = next;
        Ok(Some(unit))
    }

    // The next unit of the array that the walk is in; none at its end. Refusal: 21. Where no unit is found, the walk stays where it is.
    #[inline(always)]
    pub fn next_in_array(&mut self) -> Result<Option<Span>, Refusal>
        ensures same { self.new.list ≡ self.old.list }
        ensures steps { ArrayUnitFound self.old self.new result }
        ensures stays { Stays self.old self.new result }
    {
        let Some((unit, next)) = unit_step(self.list, self.cursor)? else {
            return Ok(None);
        };
        self.cursor = next;
        Ok(Some(unit))
    }

    // Goes on to the units of the next array, past those that are left of this one: its complete byte; none at the end. Refusal: 21.
    // Where no array is found, the walk stays where it is.
    pub fn next_array(&mut self) -> Result<Option<u8>, Refusal>
        ensures same { self.new.list ≡ self.old.list }
        ensures steps { ArrayFound self.old self.new result }
        ensures stays { Stays self.old self.new result }
    {
        let Some((complete, first)) = array_step(self.list, self.cursor)? else {
            return Ok(None);
        };
        self.cursor = first;
        Ok(Some(complete))
    }
}
