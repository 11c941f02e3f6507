// Internal: the bit reader, which borrows an RBSP and keeps its position. A read calls one of `bits`.
ghost use Rattle.std.specs.Prelude.{◌≡◌, ◌<◌, ◌≤◌, ◌^◌, length, IfOk, if◌then◌else◌};
ghost use Rattle.parse.specs.Parse.{give};
ghost use Rattle.bit_reader.specs.Bits.{u, ue, skip};
ghost use Rattle.bit_reader.specs.inner.Reader.{Steps, AlignedFrom};

use super::{BitPosition, FIRST_BIT, bits};
use error::Refusal;

// An RBSP, and the position in it of the next bit. A refused read leaves the position as it was.
#[derive(Clone, Copy, Debug)]
pub struct BitReader<'a> {
    pub src: &'a [u8],
    pub pos: BitPosition,
}

impl<'a> BitReader<'a> {
    // The reader of an RBSP, at its first bit.
    pub fn new(src: &'a [u8]) -> BitReader<'a>
        ensures { (result.src ≡ src.entry) × (result.pos.0 ≡ 0) }
    {
        BitReader {
            src,
            pos: FIRST_BIT,
        }
    }

    // The position of the next bit.
    pub fn bit_position(&self) -> BitPosition
        ensures { result ≡ self.now.pos }
    {
        self.pos
    }

    // The next `n` bits, u(n). Refusal: 11.
    pub fn u(&mut self, n: usize) -> Result<u32, Refusal>
        requires { (n ≤ 32) × (length self.old.src.now ≤ 2 ^ 30) }
        ensures read { Steps (u n) self.old self.new result }
        ensures low { IfOk result (λ v. v < 2 ^ n) }
    {
        let (value, next) = bits::read_bits(self.src, self.pos, n)?;
        self.pos = next;
        Ok(value)
    }

    // The next `n` bits where they are present; else no bits are read, and the number is 0. Refusal: 11.
    pub fn u_if(&mut self, present: bool, n: usize) -> Result<u32, Refusal>
        requires { (n ≤ 32) × (length self.old.src.now ≤ 2 ^ 30) }
        ensures read { Steps (if present then u n else give 0) self.old self.new result }
        ensures low { IfOk result (λ v. v < 2 ^ n) }
    {
        if present { self.u(n) } else { Ok(0) }
    }

    // The next Exp-Golomb code, ue(v). Refusals: 11, 12.
    pub fn ue(&mut self) -> Result<u32, Refusal>
        requires { length self.old.src.now ≤ 2 ^ 30 }
        ensures { Steps ue self.old self.new result }
    {
        let (value, next) = bits::exp_golomb(self.src, self.pos)?;
        self.pos = next;
        Ok(value)
    }

    // Passes over the next `n` bits. Refusal: 11.
    pub fn skip(&mut self, n: usize) -> Result<(), Refusal>
        requires { length self.old.src.now ≤ 2 ^ 30 }
        ensures { Steps (skip n) self.old self.new result }
    {
        self.pos = bits::skip_bits(self.src, self.pos, n)?;
        Ok(())
    }

    // Passes over the bits up to the next whole byte; none where the position is at one.
    pub fn align(&mut self)
        requires { self.old.pos.0 ≤ 2 ^ 60 }
        ensures { AlignedFrom self.old self.new }
    {
        self.pos = bits::align(self.pos);
    }
}
