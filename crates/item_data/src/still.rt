// Internal: an item stored, and the one unit of a still found in it.
ghost use Rattle.std.specs.Prelude.{◌≡◌, ◌+◌, ◌≤◌, ◌^◌, length, [], ◌∷◌};
ghost use Rattle.std.proofs.lemmas.List.Edits.{sets};
ghost use Rattle.parse.specs.Outcome.{accept};
ghost use Rattle.boxes.specs.Bytes.{to_chunk};
ghost use Rattle.split.specs.Item.{item_units};
ghost use Rattle.compact.specs.ItemData.{still_unit, restore, only_still};
ghost use Rattle.item_data.specs.inner.Still.{payload_of, PayloadFits, restored_bytes, Restores};

use boxes::{Span, place};
use compact::CompactVvcConfig;
use nal::{NAL_IDR_N_LP, header};
use split::walk;

// Stores the length in `size` bytes, the header 00 41 and the stored bytes at the front of the output.
fn store_still(size: usize, stored: &[u8], out: &mut [u8])
    requires { (size ≤ 4) × (length stored.now ≤ 2 ^ 30) × (size + 2 + length stored.now ≤ length out.old) }
    ensures { out.new ≡ sets out.old 0 (to_chunk size (still_unit stored.now)) }
{
    let header = nal::nal_header(NAL_IDR_N_LP, 0, 1);
    place::put_number(out, 0, size, 2 + stored.len());
    place::copy(&header, out, size);
    place::copy(stored, out, size + 2);
}

// Stores the item data of stored bytes that restore, in an output with room for it: a copy with the flag set, else their unit.
pub fn store_item(config: CompactVvcConfig, stored: &[u8], out: &mut [u8])
    requires { Restores config stored.now out.old }
    ensures { out.new ≡ sets out.old 0 (restored_bytes (restore config stored.now)) }
{
    if config.multi_layer_flag {
        place::copy(stored, out, 0);
        return;
    }
    store_still(usize::from(config.length_size), stored, out);
}

// The payload of an item's one unit, if that unit has type 8, layer 0 and temporal id plus 1 of 1.
pub fn find_still(length_size: u8, item: &[u8]) -> Option<Span>
    requires { length item.now ≤ 2 ^ 30 }
    ensures { (payload_of item.now result ≡ only_still item.now (item_units length_size item.now))
        × PayloadFits item.now result }
{
    if place::outside(length_size) {
        return None;
    }
    let Ok(Some(first)) = walk::item_step(item, usize::from(length_size), 0) else {
        return None;
    };
    if first.next < item.len() {
        return None;
    }
    still_of(item, first.unit)
}

// Where the payload of the unit at span a lies, if the unit is that of a plain still.
fn still_of(item: &[u8], a: Span) -> Option<Span>
    requires { a.start + a.len ≤ length item.now }
    ensures { (payload_of item.now result ≡ only_still item.now (accept (a ∷ []))) × PayloadFits item.now result }
{
    if a.len < 2 {
        return None;
    }
    let first = item[a.start];
    let second = item[a.start + 1];
    if first % 64 != 0 {
        return None;
    }
    if !header::is_picture_data_of(second / 8, NAL_IDR_N_LP) {
        return None;
    }
    if second % 8 != 1 {
        return None;
    }
    Some(Span {
        start: a.start + 2,
        len: a.len - 2,
    })
}
