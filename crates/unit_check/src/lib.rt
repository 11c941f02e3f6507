// The unit check (SCOPE 4.6): whether a unit has only bytes that a decoder takes.
#![tactic(auto)]

pub mod forbidden;

ghost use Rattle.std.specs.Prelude.{◌≡◌};
ghost use Rattle.parse.specs.Answers.{answer_of};
ghost use Rattle.unit_check.specs.Answers.{checked};

use error::{LARGEST_INPUT, Refusal};

// Whether a unit has only bytes that H.266 7.4.2 allows in one: it is not empty, has nowhere 00 00 00, 00 00 01 or 00 00 02, nor 00 00 03 before
// a byte above 03, and does not end in 00. Refusal: 23.
pub fn check_unit(unit: &[u8]) -> Result<bool, Refusal>
    ensures { answer_of result ≡ checked unit.now }
{
    if LARGEST_INPUT < unit.len() {
        return Err(Refusal::InputTooLong);
    }
    if unit.len() == 0 {
        return Ok(false);
    }
    if forbidden::ends_in_zero(unit) {
        return Ok(false);
    }
    if forbidden::first_place(unit) < unit.len() {
        return Ok(false);
    }
    Ok(true)
}
