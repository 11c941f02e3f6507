// Internal: turns the answers of a walk and of the unit check into structs of numbers.
ghost use Rattle.std.specs.Prelude.{◌≡◌, None, Some};
ghost use Rattle.error.specs.Refusals.{number_of};
ghost use Rattle.parse.specs.Answers.{answer_of};
ghost use Rattle.parse.specs.Outcome.{accept, refuse};
ghost use Rattle.vvcc_answers.specs.Answers.{unit_answer, check_answer};

use error::{Refusal, number};
use split::NextUnit;
use vvcc_answers::{VvccCheck, VvccUnit};

// A refusal of a walk.
pub fn no_unit(e: Refusal) -> VvccUnit
    ensures { result ≡ unit_answer (refuse (number_of e)) }
{
    VvccUnit {
        refusal: number(e),
        found: 0,
        start: 0,
        len: 0,
        next: 0,
    }
}

// The end of a walk.
pub fn end() -> VvccUnit
    ensures { result ≡ unit_answer (accept None) }
{
    VvccUnit {
        refusal: 0,
        found: 0,
        start: 0,
        len: 0,
        next: 0,
    }
}

// A unit, and the place after it.
pub fn unit(start: usize, len: usize, next: usize) -> VvccUnit
    ensures { result ≡ unit_answer (accept (Some (record { unit = record { start = start; len = len }; next = next }))) }
{
    VvccUnit {
        refusal: 0,
        found: 1,
        start: start,
        len: len,
        next: next,
    }
}

// The next unit of a stream.
pub fn next(n: Result<Option<NextUnit>, Refusal>) -> VvccUnit
    ensures { result ≡ unit_answer (answer_of n) }
{
    match n {
        Ok(Some(step)) => unit(step.unit.start, step.unit.len, step.next),
        Ok(None) => end(),
        Err(e) => no_unit(e),
    }
}

// The answer of the unit check.
pub fn check(c: Result<bool, Refusal>) -> VvccCheck
    ensures { result ≡ check_answer (answer_of c) }
{
    match c {
        Ok(passes) => VvccCheck {
            refusal: 0,
            passes: u32::from(passes),
        },
        Err(e) => VvccCheck {
            refusal: number(e),
            passes: 0,
        },
    }
}
