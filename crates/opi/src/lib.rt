// Reads the operating point of an OPI (SCOPE 3.12).
#![tactic(auto)]

pub mod point;

ghost use Rattle.std.specs.Prelude.{◌≡◌};
ghost use Rattle.parse.specs.Answers.{answer_of};
ghost use Rattle.opi.specs.Answers.{ols_idx_given};

use error::{LARGEST_INPUT, Refusal};

// Reads the operating point of an OPI from its unit; none where it does not read. Refusal: 23.
#[tactic(auto, using(params::proofs::Units::after_header, crate::proofs::Units::opi_short), unfolding(crate::specs::Opi::opi_ols_idx))]
pub fn opi_ols_idx(nal: &[u8]) -> Result<Option<u32>, Refusal>
    ensures { answer_of result ≡ ols_idx_given nal.now }
{
    if LARGEST_INPUT < nal.len() {
        return Err(Refusal::InputTooLong);
    }
    if nal.len() < 2 {
        return Ok(None);
    }
    Ok(point::parse_payload(&nal[2..]))
}
