// Counts and finds the units of a unit list (SCOPE 4.5): all of them, or those of a type.
#![tactic(auto)]

pub mod find;

ghost use Rattle.std.specs.Prelude.{◌≡◌};
ghost use Rattle.parse.specs.Answers.{answer_of};
ghost use Rattle.boxes.specs.Parts.{PartOf};
ghost use Rattle.boxes.specs.Places.{nth_found, PlaceFits};
ghost use Rattle.boxes.specs.Walk.{count_found, found};
ghost use Rattle.unit_list.specs.Answers.{list_units, list_units_of_type};

use boxes::{Span, place};
use error::Refusal;

// Which units of a list a call is about. At a call a reader sees `Wanted::Every`, where the `None` of an Option<u8> would say nothing.
#[derive(Clone, Copy, Debug, PartialEq, Eq)]
pub enum Wanted {
    Every,
    OfType(u8),
}

// How many units a list has. Refusals: 23, 21.
pub fn nal_count(list: &[u8]) -> Result<usize, Refusal>
    ensures { answer_of result ≡ count_found (list_units list.now) }
{
    let seen = find::find(list, Wanted::Every, 0)?;
    Ok(seen.count)
}

// Where unit k of a list lies, counted from 0; none past the last. Refusals: 23, 21.
pub fn nal_unit_at(list: &[u8], k: usize) -> Result<Option<Span>, Refusal>
    ensures { (answer_of result ≡ nth_found (list_units list.now) k) × PlaceFits list.now result }
{
    let seen = find::find(list, Wanted::Every, k)?;
    Ok(seen.unit)
}

// Unit k of a list, counted from 0; the empty part past the last unit and on a refusal.
pub fn nal_unit(list: &[u8], k: usize) -> &[u8]
    ensures { PartOf result list.entry (found (list_units list.now) k) }
{
    let unit = nal_unit_at(list, k);
    place::part_at(list, unit)
}

// How many units the arrays of a type have. Refusals: 23, 21.
pub fn nal_count_of_type(list: &[u8], t: u8) -> Result<usize, Refusal>
    ensures { answer_of result ≡ count_found (list_units_of_type t list.now) }
{
    let seen = find::find(list, Wanted::OfType(t), 0)?;
    Ok(seen.count)
}

// Where unit k in the arrays of a type lies, counted from 0; none past the last. Refusals: 23, 21.
pub fn nal_unit_of_type_at(list: &[u8], t: u8, k: usize) -> Result<Option<Span>, Refusal>
    ensures { (answer_of result ≡ nth_found (list_units_of_type t list.now) k) × PlaceFits list.now result }
{
    let seen = find::find(list, Wanted::OfType(t), k)?;
    Ok(seen.unit)
}

// Unit k in the arrays of a type, counted from 0; the empty part past the last unit and on a refusal.
pub fn nal_unit_of_type(list: &[u8], t: u8, k: usize) -> &[u8]
    ensures { PartOf result list.entry (found (list_units_of_type t list.now) k) }
{
    let unit = nal_unit_of_type_at(list, t, k);
    place::part_at(list, unit)
}
