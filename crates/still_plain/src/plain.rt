// Internal: the stream of a still whose multi-layer flag is clear: the units of its list, then the unit of the stored bytes.
ghost use Rattle.std.specs.Prelude.{◌≡◌, ◌+◌, ◌≤◌, ◌^◌, length};
ghost use Rattle.std.proofs.lemmas.List.Edits.{sets};
ghost use Rattle.parse.specs.Outcome.{lent_output, counted};
ghost use Rattle.parse.specs.Answers.{answer_of};
ghost use Rattle.annex_b.specs.Stream.{code_bytes};
ghost use Rattle.compact.specs.ItemData.{still_unit};
ghost use Rattle.access_unit.specs.AccessUnit.{code_of_type};
ghost use Rattle.access_unit.specs.inner.Gathered.{coded};
ghost use Rattle.still.specs.inner.Steps.{Plain, units_stream, plain_stream};
ghost use Rattle.still_plain.specs.inner.Plain.{Listed, ItemLong};

use crate::measure;
use access_unit::{StartCodes, lengths};
use access_unit_sizes::sizes::Sizes;
use boxes::place;
use error::Refusal;

// Stores the start code of a picture that is not the first unit, the header 00 41 and the stored bytes from place `at` on.
fn put_picture(stored: &[u8], codes: StartCodes, out: &mut [u8], at: usize)
    requires { at + length (code_bytes (code_of_type codes 8)) + 2 + length stored.now ≤ length out.old }
    ensures { out.new ≡ sets out.old at (coded codes (still_unit stored.now)) }
{
    let header = nal::nal_header(nal::NAL_IDR_N_LP, 0, 1);
    let code = lengths::type_code_len(codes, nal::NAL_IDR_N_LP);
    let start = at + code;
    access_unit_annex_b::stream::put_code(out, at, code);
    place::put(out, start, header[0]);
    place::put(out, start + 1, header[1]);
    place::copy(stored, out, start + 2);
}

// Stores the stream of a list that was measured and of the stored bytes. Refusal: 20.
fn put_sized(
    length_size: u8,
    list: &[u8],
    stored: &[u8],
    codes: StartCodes,
    sizes: Sizes,
    out: &mut [u8],
) -> Result<usize, Refusal>
    requires { Listed codes length_size list.now sizes × (length stored.now ≤ 2 ^ 30) }
    ensures { (answer_of result, out.new)
        ≡ lent_output (counted (units_stream codes list.now stored.now)) out.old }
{
    let len = measure::picture_end(sizes.len, codes, stored.len());
    if out.len() < len {
        return Err(Refusal::BufferTooShort);
    }
    let target = None;
    // An item without units: the unit of the stored bytes is stored after those of the list.
    access_unit_annex_b::stream::put_stream(
        list,
        &stored[..0],
        length_size,
        target,
        codes,
        sizes,
        out,
    );
    put_picture(stored, codes, out, sizes.len);
    Ok(len)
}

// Writes the stream of a list and of stored bytes whose item has one unit and `item_len` bytes. The item is not made. Refusals: 23, 20.
pub fn put_plain(
    length_size: u8,
    list: &[u8],
    stored: &[u8],
    item_len: usize,
    codes: StartCodes,
    out: &mut [u8],
) -> Result<usize, Refusal>
    requires { Plain length_size list.now × (length stored.now ≤ 2 ^ 30) × ItemLong length_size stored.now item_len }
    ensures { (answer_of result, out.new)
        ≡ lent_output (counted (plain_stream codes length_size list.now stored.now)) out.old }
{
    let sizes = measure::plain_sizes(length_size, list, stored, item_len, codes)?;
    put_sized(length_size, list, stored, codes, sizes, out)
}
