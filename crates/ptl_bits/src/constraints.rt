// Internal: passes over general_constraints_info( ) (H.266 7.3.3.2), and copies the bytes that hold it.
ghost use Rattle.std.specs.Prelude.{◌≡◌, ◌-◌, ◌%◌, ◌≤◌, ◌^◌, length, take, drop};
ghost use Rattle.bit_reader.specs.inner.Reader.{Reads};
ghost use Rattle.ptl.specs.Ptl.{padded, without_flags, constraint_bits, general_constraints_info};
ghost use Rattle.ptl_bits.specs.inner.Sections.{constraints};

use bit_reader::reader::BitReader;
use bit_reader::{ByteOffset, bits};
use error::Refusal;

// The two flags before the constraint information, and the constraint bytes.
#[derive(Clone, Copy, Debug, PartialEq, Eq)]
pub struct Constraints {
    pub ptl_frame_only_constraint_flag: bool,
    pub ptl_multilayer_enabled_flag: bool,
    pub num_bytes_constraint_info: usize,
    pub general_constraint_info: [u8; 63],
}

// Passes over the bits that gci_present_flag announces. Refusal: 11.
#[tactic(auto, unfolding(ptl::specs::Ptl::constraint_bits))]
fn skip_constraint_bits(br: &mut BitReader) -> Result<(), Refusal>
    requires { length br.old.src.now ≤ 2 ^ 20 }
    ensures { Reads constraint_bits br.old br.new result }
{
    br.skip(71)?;
    let num_additional_bits = br.u(8)?;
    // `as`: usize has no From of a u32; nothing is lost.
    br.skip(num_additional_bits as usize)
}

// Passes over general_constraints_info( ) up to the whole byte after it. Refusal: 11.
#[tactic(auto, unfolding(ptl::specs::Ptl::general_constraints_info))]
fn skip_constraints_info(br: &mut BitReader) -> Result<(), Refusal>
    requires { length br.old.src.now ≤ 2 ^ 20 }
    ensures { Reads general_constraints_info br.old br.new result }
{
    if br.u(1)? == 1 {
        skip_constraint_bits(br)?;
    }
    br.align();
    Ok(())
}

// The bytes between two offsets, at the front of an array; the top two bits of the first are set to 0.
pub fn constraint_bytes(rbsp: &[u8], from: ByteOffset, to: ByteOffset) -> [u8; 63]
    requires { (to.0 ≤ length rbsp.now) × (from.0 ≤ to.0) × (to.0 - from.0 ≤ 63) }
    ensures { result ≡ padded 63 0 (without_flags (take (to.0 - from.0) (drop from.0 rbsp.now))) }
{
    let mut info = [0u8; 63];
    info[..to.0 - from.0].copy_from_slice(&rbsp[from.0..to.0]);
    info[0] %= 64;
    info
}

// Reads the two flags and the constraint information from a whole byte on. Refusal: 11.
#[tactic(auto, unfolding(ptl::specs::Ptl::constraint_bytes, crate::specs::inner::Sections::constraints))]
pub fn read_constraints(br: &mut BitReader) -> Result<Constraints, Refusal>
    requires { (length br.old.src.now ≤ 2 ^ 20) × (br.old.pos.0 % 8 ≡ 0) }
    ensures { Reads constraints br.old br.new result }
{
    let from = bits::byte_offset(br.bit_position());
    let frame_only = br.u(1)?;
    let multilayer = br.u(1)?;
    skip_constraints_info(br)?;
    let to = bits::byte_offset(br.bit_position());
    Ok(Constraints {
        ptl_frame_only_constraint_flag: frame_only == 1,
        ptl_multilayer_enabled_flag: multilayer == 1,
        num_bytes_constraint_info: to.0 - from.0,
        general_constraint_info: constraint_bytes(br.src, from, to),
    })
}
