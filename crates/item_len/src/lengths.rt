// Internal: the length of restored item data, measured before any of it is written.
ghost use Rattle.std.specs.Prelude.{◌≡◌, ◌≤◌, ◌^◌, length};
ghost use Rattle.parse.specs.Answers.{answer_of};
ghost use Rattle.boxes.specs.Walk.{count_found};
ghost use Rattle.compact.specs.ItemData.{prefixed, still_unit, restore};

use boxes::place;
use compact::CompactVvcConfig;
use error::{LARGEST_INPUT, Refusal};

// 256^size: lengths below it fit a prefix of `size` bytes.
fn prefix_limit(size: usize) -> usize
    requires { (1 ≤ size) × (size ≤ 4) }
    ensures { result ≡ 256 ^ size }
{
    match size {
        1 => 0x100,
        2 => 0x1_0000,
        3 => 0x100_0000,
        _ => 0x1_0000_0000,
    }
}

// The length of the unit of the stored bytes together with its prefix. Refusals: 4, 6.
fn still_len(length_size: u8, stored: &[u8]) -> Result<usize, Refusal>
    requires { length stored.now ≤ 2 ^ 30 }
    ensures { answer_of result ≡ count_found (prefixed length_size (still_unit stored.now)) }
{
    if place::outside(length_size) {
        return Err(Refusal::PrefixSize);
    }
    let size = usize::from(length_size);
    let len = 2 + stored.len();
    if prefix_limit(size) <= len {
        return Err(Refusal::UnitTooLongForPrefix);
    }
    Ok(size + len)
}

// The length of the item data of the stored bytes. Refusals: 23, 4, 6.
pub fn item_len(config: CompactVvcConfig, stored: &[u8]) -> Result<usize, Refusal>
    ensures { answer_of result ≡ count_found (restore config stored.now) }
{
    if LARGEST_INPUT < stored.len() {
        return Err(Refusal::InputTooLong);
    }
    if config.multi_layer_flag {
        return Ok(stored.len());
    }
    still_len(config.length_size, stored)
}
