// Internal: the units of an access unit stored as an Annex B stream.
ghost use Rattle.std.specs.Prelude.{◌≡◌, ◌+◌, ◌≤◌, length};
ghost use Rattle.std.proofs.lemmas.List.Edits.{sets};
ghost use Rattle.parse.specs.inner.Stores.{bytes_of, Puts};
ghost use Rattle.boxes.specs.Bytes.{to_be};
ghost use Rattle.boxes.specs.Parts.{held};
ghost use Rattle.unit_list.specs.inner.Walks.{left_of};
ghost use Rattle.access_unit.specs.inner.Gathered.{gather, gathered_bytes, bytes_at, coded};
ghost use Rattle.access_unit_annex_b.specs.inner.Stream.{PutsFirst, FirstPut, PutsStream};

use access_unit::lengths::{FOUR_BYTES, THREE_BYTES};
use access_unit::{StartCodes, kept, lengths};
use access_unit_sizes::sizes::Sizes;
use boxes::{Span, place};
use split::walk as items;
use unit_list::ListWalk;

// The places after the units that were stored: in the item and in the output.
#[derive(Clone, Copy)]
pub struct Places {
    pub item: usize,
    pub out: usize,
}

// Stores a start code of three or four bytes. Each length is a constant, so that the compiler stores the bytes at once.
pub fn put_code(out: &mut [u8], at: usize, code: usize)
    requires { (3 ≤ code) × (code ≤ 4) × (at + code ≤ length out.old) }
    ensures { out.new ≡ sets out.old at (to_be code 1) }
{
    if code == FOUR_BYTES {
        place::put_number(out, at, FOUR_BYTES, 1);
        return;
    }
    place::put_number(out, at, THREE_BYTES, 1);
}

// Stores the unit at span a of `src`, which is not the first, after its start code, and returns the place after it.
fn put_unit(src: &[u8], a: Span, codes: StartCodes, out: &mut [u8], at: usize) -> usize
    requires { (a.start + a.len ≤ length src.now) × (at + length (coded codes (held src.now a)) ≤ length out.old) }
    ensures { (result ≡ at + length (coded codes (held src.now a)))
        × (out.new ≡ sets out.old at (coded codes (held src.now a))) }
{
    let unit = place::part(src, a);
    let code = lengths::code_len(codes, unit);
    let start = at + code;
    put_code(out, at, code);
    place::copy(unit, out, start);
    start + a.len
}

// Stores the first `n` kept units from a place of the item on.
fn put_kept(
    item: &[u8],
    size: usize,
    target: Option<u16>,
    codes: StartCodes,
    from: usize,
    n: usize,
    out: &mut [u8],
    to: usize,
) -> Places
    requires { PutsFirst codes size target item.now from n out.old to }
    ensures { FirstPut codes size target item.now from n out.old to result out.new }
{
    let mut at = from;
    let mut end = to;
    let mut left = n;
    // No `for`: units that are not kept do not count.
    while 0 < left {
        let Some(step) = items::item_step(item, size, at).unwrap_or(None) else {
            return Places { item: at, out: end };
        };
        if kept::kept_at(item, step.unit, target) {
            end = put_unit(item, step.unit, codes, out, end);
            left -= 1;
        }
        at = step.next;
    }
    Places { item: at, out: end }
}

// Stores the units that are left of a walk, and returns the place after them.
fn put_units(walk: ListWalk, codes: StartCodes, out: &mut [u8], to: usize) -> usize
    requires { Puts (bytes_at codes walk.list.now) (left_of walk) out.old to }
    ensures { (result ≡ to + length (bytes_of (bytes_at codes walk.entry.list.now) (left_of walk.entry)))
        × (out.new ≡ sets out.old to (bytes_of (bytes_at codes walk.entry.list.now) (left_of walk.entry))) }
{
    let list = walk.list;
    let mut walk = walk;
    let mut end = to;
    // No `for`: the walk's type does not know that its units were measured.
    while let Some(unit) = walk.next_unit().unwrap_or(None) {
        end = put_unit(list, unit, codes, out, end);
    }
    end
}

// Stores the stream of an access unit that was measured: the zero byte of the first unit, leading units of the item, units of the list, remaining
// units.
pub fn put_stream(
    list: &[u8],
    item: &[u8],
    length_size: u8,
    target: Option<u16>,
    codes: StartCodes,
    sizes: Sizes,
    out: &mut [u8],
)
    requires { PutsStream codes length_size target list.now item.now sizes out.old }
    ensures { out.new ≡ sets out.old 0 (gathered_bytes codes list.now item.now
        (gather length_size target list.now item.now)) }
{
    let Ok(walk) = ListWalk::start(list) else {
        return;
    };
    let size = usize::from(length_size);
    place::put_number(out, 0, sizes.zero_byte, 0);
    let led = put_kept(
        item,
        size,
        target,
        codes,
        0,
        sizes.lead,
        out,
        sizes.zero_byte,
    );
    let ends = put_units(walk, codes, out, led.out);
    let rest = sizes.kept - sizes.lead;
    put_kept(item, size, target, codes, led.item, rest, out, ends);
}
