// For speed/run alone: filling a directory, asking it for the first unit of a type, and walking over the list for it, as calls for C: the functions of
// the library `speed_directory` under their clauses.
#![tactic(auto)]

ghost use Rattle.std.specs.Prelude.{◌≡◌};
ghost use Rattle.boxes.specs.Places.{nth_found};
ghost use Rattle.unit_list.specs.Answers.{list_units_of_type};
ghost use Rattle.directory.specs.Directory.{fill_directory, unit_asked};
ghost use Rattle.directory.specs.declared.Asked.TheVariants.{FirstOfType};
ghost use Rattle.speed_directory.specs.Numbers.{numbers_of, fill_numbers};

use directory::{Entry, TYPES};
use speed_directory::UnitNumbers;

// Fills a directory and totals, as `directory_fill::fill` does.
#[unsafe(no_mangle)]
pub extern "C" fn speed_fill(list: &[u8], dir: &mut [Entry], totals: &mut [usize; TYPES]) -> u32
    ensures { (result, (dir.new, totals.new))
        ≡ fill_numbers (fill_directory list.now dir.old totals.old) }
{
    speed_directory::speed_fill(list, dir, totals)
}

// Asks a directory for the first unit of a type.
#[unsafe(no_mangle)]
pub extern "C" fn speed_first(
    list: &[u8],
    dir: &[Entry],
    totals: &[usize; TYPES],
    t: u8,
) -> UnitNumbers
    ensures { result ≡ numbers_of (unit_asked (FirstOfType t) list.now dir.now totals.now) }
{
    speed_directory::speed_first(list, dir, totals, t)
}

// Walks over a list for the first unit of a type.
#[unsafe(no_mangle)]
pub extern "C" fn speed_walk(list: &[u8], t: u8) -> UnitNumbers
    ensures { result ≡ numbers_of (nth_found (list_units_of_type t list.now) 0) }
{
    speed_directory::speed_walk(list, t)
}
