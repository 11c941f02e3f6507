// Internal: reads the first PTL of a VPS from the first bytes of its RBSP.
ghost use Rattle.std.specs.Prelude.{◌≡◌, ◌≤◌, length};
ghost use Rattle.parse.specs.Answers.{answer_of};
ghost use Rattle.parse.specs.Parse.{outcome};
ghost use Rattle.rbsp.specs.Rbsp.{rbsp};
ghost use Rattle.bit_reader.specs.inner.Reader.{Reads};
ghost use Rattle.vps.specs.Vps.{vps_ptl};
ghost use Rattle.vps.specs.inner.Front.{vps_front};

use bit_reader::reader::BitReader;
use error::Refusal;
use params::RBSP_FRONT;
use ptl::VvcPtlRecord;
use ptl_bits::bits::parse_ptl;

// Reads the fields before the PTL, up to the whole byte at which it starts; returns vps_max_sublayers_minus1. Refusals in bit order: 11, 15.
#[tactic(auto, unfolding(crate::specs::inner::Front::vps_front))]
fn read_front(br: &mut BitReader) -> Result<u8, Refusal>
    requires { length br.old.src.now ≤ 1132 }
    ensures { Reads vps_front br.old br.new result }
{
    let _id = br.u(4)?;
    let max_layers_minus1 = br.u(6)?;
    let max_sublayers_minus1 = br.u(3)?;
    if max_layers_minus1 != 0 {
        return Err(Refusal::SeveralLayers);
    }
    let _layer_id = br.u(6)?;
    br.align();
    // `as`: read from 3 bits, so nothing is lost.
    Ok(max_sublayers_minus1 as u8)
}

// Reads the first PTL of a VPS from the first bytes of its RBSP. Refusals in bit order: 11, 15.
#[tactic(auto, using(crate::proofs::FirstPtl::vps_sections))]
fn parse_rbsp(rbsp: &[u8]) -> Result<VvcPtlRecord, Refusal>
    requires { length rbsp.now ≤ 1132 }
    ensures { answer_of result ≡ outcome (vps_ptl rbsp.now 0) }
{
    let mut br = BitReader::new(rbsp);
    let max_sublayers_minus1 = read_front(&mut br)?;
    parse_ptl(&mut br, max_sublayers_minus1)
}

// Reads the first PTL of a VPS from its payload, of whose RBSP the first 1,132 bytes suffice. Refusals in bit order: 11, 15.
pub fn parse_payload(payload: &[u8]) -> Result<VvcPtlRecord, Refusal>
    ensures { answer_of result ≡ outcome (vps_ptl (rbsp payload.now) 0) }
{
    // a local array: no call allocates
    let mut buf = [0u8; RBSP_FRONT];
    let n = rbsp::fill::fill_rbsp(payload, &mut buf);
    parse_rbsp(&buf[..n])
}
