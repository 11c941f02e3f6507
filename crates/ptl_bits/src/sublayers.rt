// Internal: reads the present flags and the levels of a PTL's sublayers.
ghost use Rattle.std.specs.Prelude.{◌≡◌, false, ◌≤◌, ◌<◌, ◌^◌, length};
ghost use Rattle.bit_reader.specs.Bits.{u};
ghost use Rattle.bit_reader.specs.inner.Reader.{Reads};
ghost use Rattle.ptl.specs.Ptl.{padded, present_flags};
ghost use Rattle.ptl_bits.specs.inner.Sections.{level_array, sublayers};

use bit_reader::reader::BitReader;
use error::Refusal;

// The present flags and the levels of the sublayers.
#[derive(Clone, Copy, Debug, PartialEq, Eq)]
pub struct Sublayers {
    pub sublayer_level_present_flag: [bool; 7],
    pub sublayer_level_idc: [u8; 7],
}

// The flags in the top bits of a byte, from the highest of m sublayers down.
pub fn present_flags(flags: u32, m: usize) -> [bool; 7]
    requires { (m ≤ 7) × (flags < 256) }
    ensures { result ≡ padded 7 false (present_flags m flags) }
{
    let mut present = [false; 7];
    let mut byte = flags;
    for i in (0..m).rev() {
        present[i] = byte / 128 == 1;
        byte = byte % 128 * 2;
    }
    present
}

// Reads the levels whose flag is set, from the highest of m sublayers down; the others are 0. Refusal: 11.
fn read_levels(br: &mut BitReader, flags: u32, m: usize) -> Result<[u8; 7], Refusal>
    requires { (length br.old.src.now ≤ 2 ^ 20) × (m ≤ 7) × (flags < 256) }
    ensures { Reads (level_array (u 8) m flags) br.old br.new result }
{
    let mut levels = [0u8; 7];
    let mut byte = flags;
    for sublayer in (0..m).rev() {
        let level = br.u_if(byte / 128 == 1, 8)?;
        // `as`: read from 8 bits, so nothing is lost.
        levels[sublayer] = level as u8;
        byte = byte % 128 * 2;
    }
    Ok(levels)
}

// Reads the present flags (no bits where m is 0) and the levels of m sublayers. Refusal: 11.
#[tactic(auto, unfolding(crate::specs::inner::Sections::sublayers))]
pub fn read_sublayers(br: &mut BitReader, m: usize) -> Result<Sublayers, Refusal>
    requires { (length br.old.src.now ≤ 2 ^ 20) × (m ≤ 7) }
    ensures { Reads (sublayers m) br.old br.new result }
{
    let flags = br.u_if(0 < m, 8)?;
    let levels = read_levels(br, flags, m)?;
    Ok(Sublayers {
        sublayer_level_present_flag: present_flags(flags, m),
        sublayer_level_idc: levels,
    })
}
