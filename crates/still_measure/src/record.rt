// Internal: the length of the full record of a still, or the refusal.
ghost use Rattle.std.specs.Prelude.{◌≡◌};
ghost use Rattle.parse.specs.Answers.{answer_of};
ghost use Rattle.boxes.specs.Walk.{count_found};
ghost use Rattle.still.specs.Stills.{still_record};
ghost use Rattle.still.specs.inner.Steps.{ReadFrom, record_from};

use compact::CompactVvcConfig;
use error::Refusal;
use expand::Picture;
use still::{COMPACT_LIST, EXPANDED_LIST};

// The length of the record of a configuration and a list. Refusals: those of expansion; 3, 22.
fn record_len(config: CompactVvcConfig, list: &[u8], picture: Picture) -> Result<usize, Refusal>
    requires { ReadFrom config list.now }
    ensures { answer_of result ≡ count_found (record_from config picture list.now) }
{
    let mut grouped = [0u8; EXPANDED_LIST];
    let expanded = expand::to_full(config, list, picture, &mut grouped)?;
    full_write::record_len(expanded.head, &grouped[..expanded.list_length])
}

// The length of the full record of a still. Refusals: those of `still_record` but for 20.
pub fn still_record_len(record: &[u8], picture: Picture) -> Result<usize, Refusal>
    ensures { answer_of result ≡ count_found (still_record «record».now picture) }
{
    let mut list = [0u8; COMPACT_LIST];
    let read = compact_read::parse(record, &mut list)?;
    record_len(read.config, &list[..read.list_length], picture)
}
