// Compact write: a compact record from a configuration and a unit list (SCOPE 4.2).
#![tactic(auto)]

pub mod list_units;

ghost use Rattle.std.specs.Prelude.{◌≡◌};
ghost use Rattle.parse.specs.Answers.{answer_of};
ghost use Rattle.parse.specs.Outcome.{lent_output, counted};
ghost use Rattle.compact.specs.Compact.{serialize_compact};

use compact::CompactVvcConfig;
use error::Refusal;
use unit_list::ListWalk;

// Writes the record of a configuration and the units of a list, in order (the original's `CompactVvcConfig::serialize`).
// Refusals: 23, 21, 4, 8, 9, 20.
pub fn serialize(config: CompactVvcConfig, list: &[u8], out: &mut [u8]) -> Result<usize, Refusal>
    ensures { (answer_of result, out.new) ≡ lent_output (counted (serialize_compact config list.now)) out.old }
{
    let walk = ListWalk::start(list)?;
    list_units::put_compact(config, walk, out)
}
