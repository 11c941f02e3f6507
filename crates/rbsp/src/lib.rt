// Removes emulation prevention from a payload (SCOPE 3.4).
#![tactic(auto)]

pub mod fill;

ghost use Rattle.std.specs.Prelude.{◌≡◌};
ghost use Rattle.parse.specs.Answers.{answer_of};
ghost use Rattle.rbsp.specs.Rbsp.{extract_rbsp};

use error::{LARGEST_INPUT, Refusal};

// Writes the RBSP of a payload to the front of `out`, and returns its length. Refusals: 23, 20.
pub fn extract_rbsp(payload: &[u8], out: &mut [u8]) -> Result<usize, Refusal>
    ensures { (answer_of result, out.new) ≡ extract_rbsp payload.now out.old }
{
    if LARGEST_INPUT < payload.len() {
        return Err(Refusal::InputTooLong);
    }
    if out.len() < fill::rbsp_len(payload) {
        return Err(Refusal::BufferTooShort);
    }
    Ok(fill::fill_rbsp(payload, out))
}
