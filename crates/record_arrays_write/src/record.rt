// Internal: a record of a head and of the arrays of a list, whichever head it has: its length, and what follows the head stored.
ghost use Rattle.std.specs.Prelude.{◌≡◌, ◌&&◌, ◌≤◌, ◌^◌, leb};
ghost use Rattle.unit_list.specs.UnitList.{decode};
ghost use Rattle.unit_list.specs.inner.Walks.{arrays_left};
ghost use Rattle.record_arrays_write.specs.inner.Record.{HeadShort, Laid, sized, Sizes, PutsLaid, PutsRecord};

use boxes::place;
use error::Refusal;
use list_arrays::measure::Measure;
use list_arrays::{Layout, measure, put};
use record_arrays::Codec;
use unit_list::ListWalk;

// A record that fits its fields: the length of its head, the walk before its arrays, their number, and the length of the record.
#[derive(Clone, Copy, Debug, PartialEq, Eq)]
pub struct RecordLayout<'a> {
    pub head_len: usize,
    pub arrays: ListWalk<'a>,
    pub count: usize,
    pub len: usize,
}

// Whether a record has room for arrays as measured.
fn arrays_fit(arrays: Measure) -> bool
    ensures { result ≡ leb arrays.count 255 && arrays.fits }
{
    arrays.count <= 255 && arrays.fits
}

// The layout of a record with a head of `head_len` bytes and the arrays that are left of a walk, as measured. Refusal: 22.
fn layout<'a>(
    head_len: usize,
    walk: ListWalk<'a>,
    arrays: Measure,
) -> Result<RecordLayout<'a>, Refusal>
    requires { (head_len ≤ 1104) × (arrays.len ≤ 2 ^ 31) }
    ensures { result ≡ sized head_len walk.entry arrays }
{
    if !arrays_fit(arrays) {
        return Err(Refusal::FieldTooWide);
    }
    Ok(RecordLayout {
        head_len,
        arrays: walk,
        count: arrays.count,
        len: head_len + 1 + arrays.len,
    })
}

// The layout of the record of a head and of the arrays that are left of a walk. A head is given by its length, or by its refusal, which comes after
// that of the list. Refusals: 21, the head's, 22.
fn size_from<'a>(
    codec: Codec,
    walk: ListWalk<'a>,
    head: Result<usize, Refusal>,
) -> Result<RecordLayout<'a>, Refusal>
    requires { HeadShort head }
    ensures { Sizes codec walk.entry.list.now head (arrays_left walk.entry) result }
{
    let arrays = measure::measure_arrays(Layout::Record(codec), walk)?;
    let head_len = head?;
    layout(head_len, walk, arrays)
}

// The layout of the record of a head and a list. Refusals: 23, 21, the head's, 22.
pub fn record_size<'a>(
    codec: Codec,
    list: &'a [u8],
    head: Result<usize, Refusal>,
) -> Result<RecordLayout<'a>, Refusal>
    requires { HeadShort head }
    ensures { Sizes codec list.now head (decode list.now) result }
{
    let walk = ListWalk::start(list)?;
    size_from(codec, walk, head)
}

// Stores what follows the head of a record: the number of arrays, and the arrays. Refusal: 20.
fn put_laid(codec: Codec, l: RecordLayout, out: &mut [u8]) -> Result<usize, Refusal>
    requires { Laid codec l.arrays.list.now l }
    ensures { PutsLaid codec l.entry.arrays.list.now l.entry out.old result out.new }
{
    if out.len() < l.len {
        return Err(Refusal::BufferTooShort);
    }
    let count_at = l.head_len;
    // `as`: at most 255, so nothing is lost.
    place::put(out, count_at, l.count as u8);
    put::put_arrays(Layout::Record(codec), l.arrays, out, count_at + 1);
    Ok(l.len)
}

// Stores what follows the head of the record of a head and a list, and returns the length of the record; the head is left to the caller.
// Refusals: 23, 21, the head's, 22, 20.
pub fn put_after_head(
    codec: Codec,
    list: &[u8],
    head: Result<usize, Refusal>,
    out: &mut [u8],
) -> Result<usize, Refusal>
    requires { HeadShort head }
    ensures { PutsRecord codec list.now head out.old result out.new }
{
    let l = record_size(codec, list, head)?;
    put_laid(codec, l, out)
}
