// The full record of a still in one call (SCOPE 4.7). Intermediate results are in local arrays, so only the output is lent.
#![tactic(auto)]

ghost use Rattle.std.specs.Prelude.{◌≡◌};
ghost use Rattle.parse.specs.Outcome.{lent_output, counted};
ghost use Rattle.parse.specs.Answers.{answer_of};
ghost use Rattle.still.specs.Stills.{still_record};
ghost use Rattle.still.specs.inner.Steps.{ReadFrom, record_from};

use compact::CompactVvcConfig;
use error::Refusal;
use expand::Picture;
use still::{COMPACT_LIST, EXPANDED_LIST};

// Writes the record of a configuration and a list. Refusals: those of expansion; 3, 22; 20.
fn put_still(
    config: CompactVvcConfig,
    list: &[u8],
    picture: Picture,
    out: &mut [u8],
) -> Result<usize, Refusal>
    requires { ReadFrom config list.now }
    ensures { (answer_of result, out.new) ≡ lent_output (counted (record_from config picture list.now)) out.old }
{
    let mut grouped = [0u8; EXPANDED_LIST];
    let expanded = expand::to_full(config, list, picture, &mut grouped)?;
    full_write::serialize(expanded.head, &grouped[..expanded.list_length], out)
}

// Writes the full record of a compact record with the caller's picture.
// Refusals: 23, 1, 7; with the flag set 16 and the VPS's; 17, the SPS's, 18, the VPS's; 3, 22; 20.
pub fn still_record(record: &[u8], picture: Picture, out: &mut [u8]) -> Result<usize, Refusal>
    ensures { (answer_of result, out.new) ≡ lent_output (counted (still_record «record».now picture)) out.old }
{
    let mut list = [0u8; COMPACT_LIST];
    let read = compact_read::parse(record, &mut list)?;
    put_still(read.config, &list[..read.list_length], picture, out)
}
