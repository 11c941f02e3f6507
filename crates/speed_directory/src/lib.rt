// For speed/run alone: filling a directory, asking it for the first unit of a type, and walking over the list for it, with
// answers of numbers. `speed_directory_c` exports these calls to C.
#![tactic(auto)]

ghost use Rattle.std.specs.Prelude.{◌≡◌};
ghost use Rattle.parse.specs.Answers.{answer_of};
ghost use Rattle.boxes.specs.Places.{nth_found};
ghost use Rattle.unit_list.specs.Answers.{list_units_of_type};
ghost use Rattle.directory.specs.Directory.{fill_directory, unit_asked};
ghost use Rattle.directory.specs.declared.Asked.TheVariants.{FirstOfType};
ghost use Rattle.speed_directory.specs.Numbers.{numbers_of, refusal_of, fill_numbers};

use boxes::Span;
use directory::{Asked, Entry, TYPES};
use error::{Refusal, number};

// 0, and 1 and where the unit lies if there is one; or a refusal's number and zeros. The layout and the numbers are C's.
#[repr(C)]
#[derive(Clone, Copy, Debug, PartialEq, Eq)]
pub struct UnitNumbers {
    pub refusal: u32,
    pub is_there: u32,
    pub start: usize,
    pub len: usize,
}

// The numbers of a unit's place.
fn numbers(unit: Result<Option<Span>, Refusal>) -> UnitNumbers
    ensures { result ≡ numbers_of (answer_of unit) }
{
    let nothing = UnitNumbers {
        refusal: 0,
        is_there: 0,
        start: 0,
        len: 0,
    };
    match unit {
        Ok(Some(a)) => UnitNumbers {
            refusal: 0,
            is_there: 1,
            start: a.start,
            len: a.len,
        },
        Ok(None) => nothing,
        Err(e) => UnitNumbers {
            refusal: number(e),
            ..nothing
        },
    }
}

// A refusal's number, 0 for a count.
fn refusal_of(counted: Result<usize, Refusal>) -> u32
    ensures { result ≡ refusal_of (answer_of counted) }
{
    match counted {
        Ok(_) => 0,
        Err(e) => number(e),
    }
}

// Fills a directory and totals, as `directory_fill::fill` does.
pub fn speed_fill(list: &[u8], dir: &mut [Entry], totals: &mut [usize; TYPES]) -> u32
    ensures { (result, (dir.new, totals.new))
        ≡ fill_numbers (fill_directory list.now dir.old totals.old) }
{
    refusal_of(directory_fill::fill(list, dir, totals))
}

// Asks a directory for the first unit of a type.
pub fn speed_first(list: &[u8], dir: &[Entry], totals: &[usize; TYPES], t: u8) -> UnitNumbers
    ensures { result ≡ numbers_of (unit_asked (FirstOfType t) list.now dir.now totals.now) }
{
    numbers(directory_ask::nal_unit_at(list, dir, totals, Asked::FirstOfType(t)))
}

// Walks over a list for the first unit of a type.
pub fn speed_walk(list: &[u8], t: u8) -> UnitNumbers
    ensures { result ≡ numbers_of (nth_found (list_units_of_type t list.now) 0) }
{
    numbers(list_units::nal_unit_of_type_at(list, t, 0))
}
