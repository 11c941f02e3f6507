// Internal: the sizes of a still's stream whose multi-layer flag is clear: of its list, and with the unit of the stored bytes.
ghost use Rattle.std.specs.Prelude.{◌≡◌, ◌+◌, ◌≤◌, ◌^◌, length};
ghost use Rattle.annex_b.specs.Stream.{code_bytes};
ghost use Rattle.access_unit.specs.AccessUnit.{code_of_type};
ghost use Rattle.still.specs.inner.Steps.{Plain};
ghost use Rattle.still_plain.specs.inner.Plain.{PlainSizes, ItemLong};

use access_unit::{StartCodes, lengths};
use access_unit_sizes::sizes;
use access_unit_sizes::sizes::Sizes;
use error::{LARGEST_INPUT, Refusal};
use nal::NAL_IDR_N_LP;

// The place after the unit of the stored bytes, with its start code and its header of 2 bytes, where the stream of the list ends at `at`.
pub fn picture_end(at: usize, codes: StartCodes, stored: usize) -> usize
    requires { (at ≤ 2 ^ 40) × (stored ≤ 2 ^ 30) }
    ensures { result ≡ at + length (code_bytes (code_of_type codes 8)) + 2 + stored }
{
    let code = lengths::type_code_len(codes, NAL_IDR_N_LP);
    at + code + 2 + stored
}

// The sizes of a list as an access unit without an item, for stored bytes whose item has `item_len` bytes. Refusal: 23 for the item.
pub fn plain_sizes(
    length_size: u8,
    list: &[u8],
    stored: &[u8],
    item_len: usize,
    codes: StartCodes,
) -> Result<Sizes, Refusal>
    requires { Plain length_size list.now × ItemLong length_size stored.now item_len }
    ensures { PlainSizes codes length_size list.now stored.now result }
{
    if LARGEST_INPUT < item_len {
        return Err(Refusal::InputTooLong);
    }
    let target = None;
    // An item without units: the picture's unit is not in an item here, and its bytes are added by `picture_end`.
    sizes::measure(list, &stored[..0], length_size, target, codes)
}
