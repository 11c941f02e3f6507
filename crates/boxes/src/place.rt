// Internal: reads, writes and copies bytes and numbers at places that a caller has tested, and cuts parts out of lent memory.
ghost use Rattle.std.specs.Prelude.{◌≡◌, ◌+◌, ◌≤◌, ◌<◌, ◌^◌, length, get_or, set};
ghost use Rattle.std.proofs.lemmas.List.Edits.{sets};
ghost use Rattle.parse.specs.Answers.{answer_of};
ghost use Rattle.boxes.specs.Bytes.{be, to_be, outside};
ghost use Rattle.boxes.specs.Parts.{PartOf};
ghost use Rattle.boxes.specs.Places.{PlaceFits};
ghost use Rattle.boxes.specs.inner.Places.{lying};

use super::Span;
use error::Refusal;

// Whether a prefix size is outside 1 to 4.
pub fn outside(length_size: u8) -> bool
    ensures { result ≡ outside length_size }
{
    length_size == 0 || 4 < length_size
}

// The byte at a place, 0 past the end.
pub fn byte(s: &[u8], at: usize) -> u8
    ensures { result ≡ get_or s.now at 0 }
{
    if at < s.len() { s[at] } else { 0 }
}

// The number of the four bytes from a place on. The compiler reads them at once.
fn number_of_four(s: &[u8], at: usize) -> usize
    requires { at + 4 ≤ length s.now }
    ensures { (result ≡ be s.now at 4) × (result < 256 ^ 4) }
{
    let high = usize::from(s[at]) * 256 + usize::from(s[at + 1]);
    let low = usize::from(s[at + 2]) * 256 + usize::from(s[at + 3]);
    high * 65536 + low
}

// The number of the `width` bytes from a place on.
pub fn number(s: &[u8], at: usize, width: usize) -> usize
    requires { (width ≤ 4) × (at + width ≤ length s.now) }
    ensures { (result ≡ be s.now at width) × (result < 256 ^ width) }
{
    if width == 4 {
        return number_of_four(s, at);
    }
    let mut n: usize = 0;
    for k in 0..width {
        n = n * 256 + usize::from(s[at + k]);
    }
    n
}

// The part at a span.
pub fn part(s: &[u8], a: Span) -> &[u8]
    requires { a.start + a.len ≤ length s.now }
    ensures { PartOf result s.entry a }
{
    &s[a.start..a.start + a.len]
}

// The part where a unit lies; the empty part where there is none, and on a refusal.
pub fn part_at(s: &[u8], unit: Result<Option<Span>, Refusal>) -> &[u8]
    requires { PlaceFits s.now unit }
    ensures { PartOf result s.entry (lying (answer_of unit)) }
{
    match unit {
        Ok(Some(a)) => part(s, a),
        _ => &s[..0],
    }
}

// Stores a byte at a place; past the end nothing is stored.
pub fn put(out: &mut [u8], at: usize, b: u8)
    ensures { out.new ≡ set out.old at b }
{
    if at < out.len() {
        out[at] = b;
    }
}

// Stores the `width` bytes of a number from a place on.
pub fn put_number(out: &mut [u8], at: usize, width: usize, v: usize)
    requires { (width ≤ 4) × (at + width ≤ length out.old) }
    ensures { out.new ≡ sets out.old at (to_be width v) }
{
    let mut n = v;
    for k in 0..width {
        let i = at + width - (k + 1);
        // `as`: below 256, so nothing is lost.
        out[i] = (n % 256) as u8;
        n = n / 256;
    }
}

// How many bytes are copied at a time.
pub const BLOCK: usize = 16384;

// How many of the bytes that are left are copied next.
fn block_len(left: usize) -> usize
    ensures { (result ≤ left) × (result ≤ 16384) × (0 < left → 0 < result) }
{
    left.min(BLOCK)
}

// Copies a block through a local array. The array overlaps neither slice, so the compiler moves the block at once and leaves the array out.
fn copy_block(src: &[u8], out: &mut [u8], at: usize)
    requires { (length src.now ≤ 16384) × (at + length src.now ≤ length out.old) }
    ensures { out.new ≡ sets out.old at src.now }
{
    let mut block = [0u8; BLOCK];
    let n = src.len();
    block[0..n].copy_from_slice(src);
    out[at..at + n].copy_from_slice(&block[0..n]);
}

// Copies all of a slice to a place of lent memory.
pub fn copy(src: &[u8], out: &mut [u8], at: usize)
    requires { at + length src.now ≤ length out.old }
    ensures { out.new ≡ sets out.old at src.now }
{
    let mut done: usize = 0;
    // No single copy: in blocks it is faster (decision 17).
    while done < src.len() {
        let n = block_len(src.len() - done);
        copy_block(&src[done..done + n], out, at + done);
        done += n;
    }
}
