// Internal: reads the operating point of an OPI from the first bytes of its RBSP.
ghost use Rattle.std.specs.Prelude.{◌≡◌, ◌≤◌, length};
ghost use Rattle.rbsp.specs.Rbsp.{rbsp};
ghost use Rattle.opi.specs.Opi.{where_read, opi_point};

use bit_reader::reader::BitReader;

// Reads the operating point from the first bytes of an OPI's RBSP: the code after two flags, where the first flag is 1.
#[tactic(auto, unfolding(crate::specs::Opi::opi_point))]
fn parse_rbsp(rbsp: &[u8]) -> Option<u32>
    requires { length rbsp.now ≤ 9 }
    ensures { result ≡ where_read (opi_point rbsp.now 0) }
{
    let mut br = BitReader::new(rbsp);
    let ols_info_present = br.u(1).ok()?;
    let _htid_info_present = br.u(1).ok()?;
    if ols_info_present != 1 {
        return None;
    }
    br.ue().ok()
}

// Reads the operating point from an OPI's payload: two flags and a code of at most 63 bits, so the first 9 bytes of its RBSP suffice.
pub fn parse_payload(payload: &[u8]) -> Option<u32>
    ensures { result ≡ where_read (opi_point (rbsp payload.now) 0) }
{
    // a local array: no call allocates
    let mut buf = [0u8; 9];
    let n = rbsp::fill::fill_rbsp(payload, &mut buf);
    parse_rbsp(&buf[..n])
}
