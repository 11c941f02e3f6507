// Fills a directory of the units of a list (SCOPE 4.12), in memory that the caller lends; `directory_ask` asks it.
#![tactic(auto)]

pub mod entries;
pub mod slots;

ghost use Rattle.std.specs.Prelude.{◌≡◌};
ghost use Rattle.parse.specs.Answers.{answer_of};
ghost use Rattle.directory.specs.Directory.{fill_directory};

use directory::{Entry, TYPES};
use error::Refusal;

// Fills a directory with the units of a list, and the totals with the number of units of each type; the count is that of the entries.
// Entries after the last keep their contents. Refusals: 23, 21, 28.
pub fn fill(list: &[u8], dir: &mut [Entry], totals: &mut [usize; TYPES]) -> Result<usize, Refusal>
    ensures { (answer_of result, (dir.new, totals.new))
        ≡ fill_directory list.now dir.old totals.old }
{
    let n = entries::fitting(list, dir.len())?;
    slots::fill_entries(list, dir, n);
    entries::put_counted_totals(list, Ok(n), totals);
    Ok(n)
}
