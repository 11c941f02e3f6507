// Internal: reads the sub-profiles of a PTL.
ghost use Rattle.std.specs.Prelude.{◌≡◌, ◌≤◌, ◌^◌, length};
ghost use Rattle.bit_reader.specs.Bits.{u};
ghost use Rattle.bit_reader.specs.inner.Reader.{Reads};
ghost use Rattle.ptl_bits.specs.inner.Sections.{value_array, sub_profiles};

use bit_reader::reader::BitReader;
use error::Refusal;

// The number of sub-profiles, and the sub-profiles.
#[derive(Clone, Copy, Debug, PartialEq, Eq)]
pub struct SubProfiles {
    pub num_sub_profiles: usize,
    pub general_sub_profile_idc: [u32; 255],
}

// Reads the next n sub-profiles, 32 bits each. Refusal: 11.
fn read_values(br: &mut BitReader, n: usize) -> Result<[u32; 255], Refusal>
    requires { (length br.old.src.now ≤ 2 ^ 20) × (n ≤ 255) }
    ensures { Reads (value_array (u 32) n) br.old br.new result }
{
    let mut values = [0u32; 255];
    for k in 0..n {
        values[k] = br.u(32)?;
    }
    Ok(values)
}

// Reads ptl_num_sub_profiles and that many sub-profiles. Refusal: 11.
#[tactic(auto, unfolding(crate::specs::inner::Sections::sub_profiles))]
pub fn read_sub_profiles(br: &mut BitReader) -> Result<SubProfiles, Refusal>
    requires { length br.old.src.now ≤ 2 ^ 20 }
    ensures { Reads sub_profiles br.old br.new result }
{
    // `as`: usize has no From of a u32; nothing is lost.
    let n = br.u(8)? as usize;
    let values = read_values(br, n)?;
    Ok(SubProfiles {
        num_sub_profiles: n,
        general_sub_profile_idc: values,
    })
}
