// Conversion of unit lists between the versions (SCOPE 4.13): lengths have 4 bytes in version 01 and 2 bytes in version 02.
#![tactic(auto)]

pub mod list;

ghost use Rattle.std.specs.Prelude.{◌≡◌};
ghost use Rattle.parse.specs.Answers.{answer_of};
ghost use Rattle.parse.specs.Outcome.{lent_output, counted};
ghost use Rattle.narrow.specs.Narrow.{narrowed, widened};

use error::Refusal;

// The versions of a unit list.
pub const WIDE: u8 = 1;

pub const NARROW: u8 = 2;

// Writes the list with the same arrays of version 02; a list of version 02 is written as it is. Refusals: 23, 21, 29, 20.
pub fn narrow(list: &[u8], out: &mut [u8]) -> Result<usize, Refusal>
    ensures { (answer_of result, out.new) ≡ lent_output (counted (narrowed list.now)) out.old }
{
    let layout = list::size(list, NARROW)?;
    if !layout.fits {
        return Err(Refusal::TooLongToNarrow);
    }
    list::put(NARROW, layout, out)
}

// Writes the list with the same arrays of version 01; a list of version 01 is written as it is. Refusals: 23, 21, 20.
pub fn widen(list: &[u8], out: &mut [u8]) -> Result<usize, Refusal>
    ensures { (answer_of result, out.new) ≡ lent_output (counted (widened list.now)) out.old }
{
    let layout = list::size(list, WIDE)?;
    list::put(WIDE, layout, out)
}
