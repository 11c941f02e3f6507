// Internal: turns the answers of calls that write into a struct of numbers, and a caller's numbers into what these calls take.
ghost use Rattle.std.specs.Prelude.{◌≡◌};
ghost use Rattle.error.specs.Refusals.{number_of};
ghost use Rattle.parse.specs.Outcome.{refuse};
ghost use Rattle.parse.specs.Answers.{answer_of};
ghost use Rattle.vvcc_answers.specs.Answers.{written_answer, target_from, codes_from};

use super::VvccWritten;
use access_unit::StartCodes;
use error::{Refusal, number};

// A refusal of a call that writes.
pub fn refused(e: Refusal) -> VvccWritten
    ensures { result ≡ written_answer (refuse (number_of e)) }
{
    VvccWritten {
        refusal: number(e),
        len: 0,
    }
}

// The answer of a call that writes.
pub fn written(w: Result<usize, Refusal>) -> VvccWritten
    ensures { result ≡ written_answer (answer_of w) }
{
    match w {
        Ok(len) => VvccWritten { refusal: 0, len },
        Err(e) => refused(e),
    }
}

// The operating point that a caller asks for: none if `has_target` is 0.
pub fn target_from(has_target: u8, target: u16) -> Option<u16>
    ensures { result ≡ target_from has_target target }
{
    if has_target == 0 {
        return None;
    }
    Some(target)
}

// The start codes that a caller asks for: four bytes throughout if `short_codes` is 0.
pub fn codes_from(short_codes: u8) -> StartCodes
    ensures { result ≡ codes_from short_codes }
{
    if short_codes == 0 {
        return StartCodes::Four;
    }
    StartCodes::Short
}
