// Compact read: a compact record read into its configuration and a unit list (SCOPE 3.2).
#![tactic(auto)]

pub mod record_units;

ghost use Rattle.std.specs.Prelude.{◌≡◌};
ghost use Rattle.parse.specs.Answers.{answer_of};
ghost use Rattle.parse.specs.Outcome.{lent_output};
ghost use Rattle.compact.specs.Compact.{parse_compact};

use boxes::place;
use compact::CompactRead;
use error::Refusal;

// Reads a compact record (the original's `CompactVvcConfig::parse`); its units go to the output as a unit list of one array.
// Refusals: 23, 1, 7, 20.
pub fn parse(record: &[u8], out: &mut [u8]) -> Result<CompactRead, Refusal>
    ensures { (answer_of result, out.new) ≡ lent_output (parse_compact «record».now) out.old }
{
    let units = record_units::record_room(record)?;
    let list_length = record_units::UNITS_AT + units.room;
    if out.len() < list_length {
        return Err(Refusal::BufferTooShort);
    }
    let first = place::byte(record, 0);
    record_units::put_list(record, units.count, units.room, out);
    Ok(CompactRead {
        config: record_units::config_of(first),
        unit_count: units.count,
        list_length,
    })
}
