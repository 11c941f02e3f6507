// Internal: the length of the stream of a still, or the refusal.
ghost use Rattle.std.specs.Prelude.{◌≡◌, ◌≤◌, ◌^◌, length};
ghost use Rattle.parse.specs.Answers.{answer_of};
ghost use Rattle.boxes.specs.Walk.{count_found};
ghost use Rattle.still.specs.Stills.{still_stream};
ghost use Rattle.still.specs.inner.Steps.{ReadFrom, ExpandedFrom, Plain, item_after, plain_stream, stream_expanded, stream_from};
ghost use Rattle.still_plain.specs.inner.Plain.{ItemLong};

use access_unit::{StartCodes, lengths};
use compact::CompactVvcConfig;
use error::{LARGEST_INPUT, Refusal};
use full::VvcConfig;
use still::{ANY_PICTURE, COMPACT_LIST, EXPANDED_LIST, item};
use still_plain::measure;

// The length of the item of the stored bytes, if full write accepts the record. Neither is made: full read returns the same list and what assembly
// uses of the head, and the item is the stored bytes or has them as its one unit's payload. Refusals: 3, 22; with the flag clear 6. The stream of an
// expansion needs no record's length (`still::item::restored_len`).
pub fn restored_len(
    config: CompactVvcConfig,
    head: VvcConfig,
    list: &[u8],
    stored: &[u8],
) -> Result<usize, Refusal>
    ensures { answer_of result ≡ count_found (item_after config head list.now stored.now) }
{
    full_write::record_len(head, list)?;
    item_len::lengths::item_len(config, stored)
}

// The length of the stream of a list and of stored bytes with one unit. Refusal: 23.
fn plain_len(
    length_size: u8,
    list: &[u8],
    stored: &[u8],
    item_len: usize,
    codes: StartCodes,
) -> Result<usize, Refusal>
    requires { Plain length_size list.now × (length stored.now ≤ 2 ^ 30) × ItemLong length_size stored.now item_len }
    ensures { answer_of result ≡ count_found (plain_stream codes length_size list.now stored.now) }
{
    let sizes = measure::plain_sizes(length_size, list, stored, item_len, codes)?;
    Ok(measure::picture_end(sizes.len, codes, stored.len()))
}

// The length of the stream of an expanded head and list. Refusals: 3, 22; with the flag clear 6, 23, else in byte order 1 and 5.
fn expanded_len(
    config: CompactVvcConfig,
    head: VvcConfig,
    list: &[u8],
    stored: &[u8],
    tols: Option<u16>,
    codes: StartCodes,
) -> Result<usize, Refusal>
    requires { ExpandedFrom config head list.now × (length stored.now ≤ 2 ^ 30) }
    ensures { answer_of result ≡ count_found (stream_expanded codes config head list.now stored.now tols) }
{
    let item_len = item::restored_len(config, list, stored)?;
    if config.multi_layer_flag {
        return access_unit_sizes::lengths::access_unit_len(head, list, stored, tols, codes);
    }
    plain_len(config.length_size, list, stored, item_len, codes)
}

// The length of the stream of a configuration and a list. Refusals: those of expansion; 3, 22; with the flag clear 6, 23, else in byte order 1 and 5.
fn stream_len(
    config: CompactVvcConfig,
    list: &[u8],
    stored: &[u8],
    tols: Option<u16>,
    codes: StartCodes,
) -> Result<usize, Refusal>
    requires { ReadFrom config list.now × (length stored.now ≤ 2 ^ 30) }
    ensures { answer_of result ≡ count_found (stream_from codes config list.now stored.now tols) }
{
    let mut grouped = [0u8; EXPANDED_LIST];
    let expanded = expand::to_full(config, list, ANY_PICTURE, &mut grouped)?;
    let listed = &grouped[..expanded.list_length];
    expanded_len(config, expanded.head, listed, stored, tols, codes)
}

// The length of the stream of a still. Refusals: those of `still_stream` but for 20.
pub fn still_stream_len(
    record: &[u8],
    stored: &[u8],
    tols: Option<u16>,
    codes: StartCodes,
) -> Result<usize, Refusal>
    ensures { answer_of result ≡ count_found (still_stream codes «record».now stored.now tols) }
{
    if LARGEST_INPUT < stored.len() {
        return Err(Refusal::InputTooLong);
    }
    let mut list = [0u8; COMPACT_LIST];
    let read = compact_read::parse(record, &mut list)?;
    stream_len(read.config, &list[..read.list_length], stored, tols, codes)
}
