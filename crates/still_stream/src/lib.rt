// The Annex B stream of a still in one call (SCOPE 4.7). Intermediate results are in local arrays, so only the output is lent.
#![tactic(auto)]

ghost use Rattle.std.specs.Prelude.{◌≡◌, ◌≤◌, ◌^◌, length};
ghost use Rattle.parse.specs.Outcome.{lent_output, counted};
ghost use Rattle.parse.specs.Answers.{answer_of};
ghost use Rattle.still.specs.Stills.{still_stream};
ghost use Rattle.still.specs.inner.Steps.{ReadFrom, ExpandedFrom, stream_expanded, stream_from};

use access_unit::StartCodes;
use compact::CompactVvcConfig;
use error::{LARGEST_INPUT, Refusal};
use full::VvcConfig;
use still::{ANY_PICTURE, COMPACT_LIST, EXPANDED_LIST, item};
use still_plain::plain;

// Writes the stream of an expanded head and list. Refusals: 3, 22; with the flag clear 6, 23, else in byte order 1 and 5; 20.
fn put_expanded(
    config: CompactVvcConfig,
    head: VvcConfig,
    list: &[u8],
    stored: &[u8],
    tols: Option<u16>,
    codes: StartCodes,
    out: &mut [u8],
) -> Result<usize, Refusal>
    requires { ExpandedFrom config head list.now × (length stored.now ≤ 2 ^ 30) }
    ensures { (answer_of result, out.new)
        ≡ lent_output (counted (stream_expanded codes config head list.now stored.now tols)) out.old }
{
    let item_len = item::restored_len(config, list, stored)?;
    if config.multi_layer_flag {
        return access_unit_annex_b::access_unit_annex_b(head, list, stored, tols, codes, out);
    }
    plain::put_plain(config.length_size, list, stored, item_len, codes, out)
}

// Writes the stream of a configuration and a list.
// Refusals: those of expansion; 3, 22; with the flag clear 6, 23, else in byte order 1 and 5; 20.
fn put_stream(
    config: CompactVvcConfig,
    list: &[u8],
    stored: &[u8],
    tols: Option<u16>,
    codes: StartCodes,
    out: &mut [u8],
) -> Result<usize, Refusal>
    requires { ReadFrom config list.now × (length stored.now ≤ 2 ^ 30) }
    ensures { (answer_of result, out.new)
        ≡ lent_output (counted (stream_from codes config list.now stored.now tols)) out.old }
{
    let mut grouped = [0u8; EXPANDED_LIST];
    let expanded = expand::to_full(config, list, ANY_PICTURE, &mut grouped)?;
    let listed = &grouped[..expanded.list_length];
    put_expanded(config, expanded.head, listed, stored, tols, codes, out)
}

// Writes the stream of a compact record and stored bytes, with the caller's target or none and choice of start codes.
// Refusals: 23, 1, 7; with the flag set 16 and the VPS's; 17, the SPS's, 18, the VPS's; 3, 22; with the flag clear 6 and 23 (an item above 2^30
// bytes), else in byte order 1 and 5; 20.
pub fn still_stream(
    record: &[u8],
    stored: &[u8],
    tols: Option<u16>,
    codes: StartCodes,
    out: &mut [u8],
) -> Result<usize, Refusal>
    ensures { (answer_of result, out.new)
        ≡ lent_output (counted (still_stream codes «record».now stored.now tols)) out.old }
{
    if LARGEST_INPUT < stored.len() {
        return Err(Refusal::InputTooLong);
    }
    let mut list = [0u8; COMPACT_LIST];
    let read = compact_read::parse(record, &mut list)?;
    let listed = &list[..read.list_length];
    put_stream(read.config, listed, stored, tols, codes, out)
}
