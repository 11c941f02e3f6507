// Internal: a length and that many bytes after it: read before an end, and stored at a place. The width of the length is a parameter.
ghost use Rattle.std.specs.Prelude.{◌≡◌, ◌+◌, ◌≤◌, ◌^◌, length, take};
ghost use Rattle.std.proofs.lemmas.List.Edits.{sets};
ghost use Rattle.boxes.specs.Bytes.{chunk as chunk_of, to_chunk};
ghost use Rattle.boxes.specs.Parts.{held};
ghost use Rattle.boxes.specs.inner.Chunks.{chunk_stepped};

use super::{Span, place};

// Where the bytes lie that follow their length of `width` bytes, all before `end`; none where they are not all there.
pub fn chunk(s: &[u8], at: usize, end: usize, width: usize) -> Option<Span>
    requires { (width ≤ 4) × (at ≤ end) × (end ≤ length s.now) × (length s.now ≤ 2 ^ 30) }
    ensures { chunk_stepped result ≡ chunk_of width (take end s.now) at }
{
    if end - at < width {
        return None;
    }
    let len = place::number(s, at, width);
    let start = at + width;
    if end - start < len {
        return None;
    }
    Some(Span { start, len })
}

// Stores bytes after their length of `width` bytes.
fn put_chunk(src: &[u8], out: &mut [u8], at: usize, width: usize)
    requires { (width ≤ 4) × (at + width + length src.now ≤ length out.old) }
    ensures { out.new ≡ sets out.old at (to_chunk width src.now) }
{
    place::put_number(out, at, width, src.len());
    place::copy(src, out, at + width);
}

// Stores the unit at a span of `src` after its length of `width` bytes.
pub fn put_unit(src: &[u8], a: Span, out: &mut [u8], at: usize, width: usize)
    requires { (a.start + a.len ≤ length src.now) × (width ≤ 4) × (at + width + a.len ≤ length out.old) }
    ensures { out.new ≡ sets out.old at (to_chunk width (held src.now a)) }
{
    let unit = place::part(src, a);
    put_chunk(unit, out, at, width);
}
