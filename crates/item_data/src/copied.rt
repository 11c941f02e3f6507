// Internal: bytes copied to an output.
ghost use Rattle.std.specs.Prelude.{◌≡◌};
ghost use Rattle.parse.specs.Answers.{answer_of};
ghost use Rattle.parse.specs.Outcome.{accept, lent_output, counted};

use boxes::place;
use error::Refusal;

// Writes a copy of `src`. Refusal: 20.
pub fn put_all(src: &[u8], out: &mut [u8]) -> Result<usize, Refusal>
    ensures { (answer_of result, out.new) ≡ lent_output (counted (accept src.now)) out.old }
{
    if out.len() < src.len() {
        return Err(Refusal::BufferTooShort);
    }
    place::copy(src, out, 0);
    Ok(src.len())
}
