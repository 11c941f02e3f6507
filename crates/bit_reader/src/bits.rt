// Internal: reads bits at a position of at most 2^30 bytes.
ghost use Rattle.std.specs.Prelude.{◌≡◌, List, ℕ, ◌+◌, ◌*◌, ◌%◌, ◌≤◌, ◌<◌, ◌^◌, leb, length, IfOk};
ghost use Rattle.parse.specs.Parse.{value};
ghost use Rattle.bit_reader.specs.Bits.{bit_at, u, skip, align, zeros_before_one, ue};
ghost use Rattle.bit_reader.specs.inner.Answers.{parsed, passed};

use super::{BitPosition, ByteOffset};
use error::Refusal;

// The position `n` bits after a position.
pub fn on(at: BitPosition, n: usize) -> BitPosition
    requires { at.0 + n < 2 ^ 64 }
    ensures { result.0 ≡ at.0 + n }
{
    BitPosition(at.0 + n)
}

// The bit at a position, the highest of each byte first.
fn bit(s: &[u8], at: BitPosition) -> u32
    requires { at.0 < 8 * length s.now }
    ensures { result ≡ bit_at s.now at.0 }
{
    let p = at.0;
    u32::from((s[p / 8] >> (7 - p % 8)) % 2)
}

// Whether `n` bits are left from a position on.
fn has_bits(s: &[u8], at: BitPosition, n: usize) -> bool
    requires { length s.now ≤ 2 ^ 30 }
    ensures { result ≡ leb (at.0 + n) (8 * length s.now) }
{
    let total = s.len() * 8;
    at.0 <= total && n <= total - at.0
}

// The number of the `n` bits from a position on, u(n), and the position after them. Refusal: 11.
pub fn read_bits(s: &[u8], at: BitPosition, n: usize) -> Result<(u32, BitPosition), Refusal>
    requires { (n ≤ 32) × (length s.now ≤ 2 ^ 30) }
    ensures read { parsed result ≡ u n s.now at.0 }
    ensures low { IfOk result (λ (v, _). v < 2 ^ n) }
{
    if !has_bits(s, at, n) {
        return Err(Refusal::BitsRunOut);
    }
    let mut v: u32 = 0;
    for k in 0..n {
        v = v * 2 + bit(s, on(at, k));
    }
    Ok((v, on(at, n)))
}

// The position after the `n` bits from a position on. Refusal: 11.
pub fn skip_bits(s: &[u8], at: BitPosition, n: usize) -> Result<BitPosition, Refusal>
    requires { length s.now ≤ 2 ^ 30 }
    ensures { passed result ≡ skip n s.now at.0 }
{
    if !has_bits(s, at, n) {
        return Err(Refusal::BitsRunOut);
    }
    Ok(on(at, n))
}

// The zeros before the next 1, at most 31, and the position after the 1. Refusals: 11, 12.
fn zeros_before_one(s: &[u8], at: BitPosition) -> Result<(u32, BitPosition), Refusal>
    requires { length s.now ≤ 2 ^ 30 }
    ensures { parsed result ≡ zeros_before_one 0 32 s.now at.0 }
{
    let mut here = at;
    for z in 0..32 {
        if !has_bits(s, here, 1) {
            return Err(Refusal::BitsRunOut);
        }
        let next = on(here, 1);
        if bit(s, here) == 1 {
            return Ok((z, next));
        }
        here = next;
    }
    Err(Refusal::CodeTooLong)
}

// The Exp-Golomb code from a position on, ue(v), and the position after it. Refusals: 11, 12.
pub fn exp_golomb(s: &[u8], at: BitPosition) -> Result<(u32, BitPosition), Refusal>
    requires { length s.now ≤ 2 ^ 30 }
    ensures { parsed result ≡ ue s.now at.0 }
{
    let (zeros, after) = zeros_before_one(s, at)?;
    // `as`: usize has no From of a u32; nothing is lost.
    let (low, next) = read_bits(s, after, zeros as usize)?;
    Ok(((1u32 << zeros) - 1 + low, next))
}

// The position of the next whole byte; the position itself where it is at one.
pub fn align(at: BitPosition) -> BitPosition
    requires { at.0 ≤ 2 ^ 60 }
    ensures { (s : List ℕ) → align s at.0 ≡ value tt result.0 }
{
    BitPosition((at.0 + 7) / 8 * 8)
}

// The byte offset of a position at a whole byte.
pub fn byte_offset(at: BitPosition) -> ByteOffset
    requires { at.0 % 8 ≡ 0 }
    ensures { 8 * result.0 ≡ at.0 }
{
    ByteOffset(at.0 / 8)
}
