// Item data restored from the stored bytes of a still and stripped to them again (SCOPE 3.11 and 4.1).
#![tactic(auto)]

pub mod copied;
pub mod still;

ghost use Rattle.std.specs.Prelude.{◌≡◌};
ghost use Rattle.parse.specs.Answers.{answer_of};
ghost use Rattle.parse.specs.Outcome.{lent_output, counted};
ghost use Rattle.compact.specs.ItemData.{restore, strip};

use boxes::place;
use compact::CompactVvcConfig;
use error::{LARGEST_INPUT, Refusal};
use item_len::lengths;

// Writes the item data of stored bytes: a copy with the flag set, else 00 41 and the stored bytes after their length.
// Refusals: 23; flag clear: 4, 6; 20.
pub fn item_data(config: CompactVvcConfig, stored: &[u8], out: &mut [u8]) -> Result<usize, Refusal>
    ensures { (answer_of result, out.new) ≡ lent_output (counted (restore config stored.now)) out.old }
{
    let len = lengths::item_len(config, stored)?;
    if out.len() < len {
        return Err(Refusal::BufferTooShort);
    }
    still::store_item(config, stored, out);
    Ok(len)
}

// Writes the bytes to store for an item: a copy with the flag set, else the payload of its one unit.
// Refusals: 23; flag clear: 24; 20.
pub fn strip_item_data(
    config: CompactVvcConfig,
    item: &[u8],
    out: &mut [u8],
) -> Result<usize, Refusal>
    ensures { (answer_of result, out.new) ≡ lent_output (counted (strip config item.now)) out.old }
{
    if LARGEST_INPUT < item.len() {
        return Err(Refusal::InputTooLong);
    }
    if config.multi_layer_flag {
        return copied::put_all(item, out);
    }
    let Some(payload) = still::find_still(config.length_size, item) else {
        return Err(Refusal::NotOneStill);
    };
    copied::put_all(place::part(item, payload), out)
}
