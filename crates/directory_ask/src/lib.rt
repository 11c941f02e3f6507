// Asks a directory of the units of a list (SCOPE 4.12) for what a walk over the list would find; `directory_fill` fills it.
#![tactic(auto)]

pub mod question;

ghost use Rattle.std.specs.Prelude.{◌≡◌};
ghost use Rattle.parse.specs.Answers.{answer_of};
ghost use Rattle.boxes.specs.Parts.{PartOf};
ghost use Rattle.boxes.specs.Places.{PlaceFits};
ghost use Rattle.directory.specs.Directory.{unit_asked, count_asked, part_asked};

use boxes::{Span, place};
use directory::{Asked, Entry, TYPES};
use error::Refusal;

// How many units of a type there are, by the totals. Refusals: 23, 1.
pub fn nal_count_of_type(
    list: &[u8],
    dir: &[Entry],
    totals: &[usize; TYPES],
    t: u8,
) -> Result<usize, Refusal>
    ensures { answer_of result ≡ count_asked t list.now dir.now totals.now }
{
    question::in_use(list, totals, dir.len())?;
    Ok(question::total(totals, t))
}

// Where the unit that is asked for lies, by the entries in use. Refusals: 23, 1.
pub fn nal_unit_at(
    list: &[u8],
    dir: &[Entry],
    totals: &[usize; TYPES],
    asked: Asked,
) -> Result<Option<Span>, Refusal>
    ensures { (answer_of result ≡ unit_asked asked list.now dir.now totals.now)
        × PlaceFits list.now result }
{
    let n = question::in_use(list, totals, dir.len())?;
    let found = question::search(dir, n, asked);
    question::unit_place(list, found)
}

// The unit that is asked for, as a part of the list; the empty part where there is none and on a refusal.
pub fn nal_unit<'a, 'b, 'c>(
    list: &'a [u8],
    dir: &'b [Entry],
    totals: &'c [usize; TYPES],
    asked: Asked,
) -> &'a [u8]
    ensures { PartOf result list.entry (part_asked (unit_asked asked list.now dir.now totals.now)) }
{
    let unit = nal_unit_at(list, dir, totals, asked);
    place::part_at(list, unit)
}
