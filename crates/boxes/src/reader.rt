// Internal: reads a field of lent bytes, or refuses where it runs past the end.
ghost use Rattle.std.specs.Prelude.{◌≡◌, ◌≤◌};
ghost use Rattle.parse.specs.Answers.{answer_of};
ghost use Rattle.boxes.specs.Answers.{field_at};

use super::place;
use error::{LARGEST_INPUT, Refusal};

// The number of the 1 to 4 bytes at a place, and the place after them. Refusals: 23, 1.
pub fn uint_at(s: &[u8], at: usize, width: usize) -> Result<(u32, usize), Refusal>
    requires { (1 ≤ width) × (width ≤ 4) }
    ensures { answer_of result ≡ field_at width s.now at }
{
    if LARGEST_INPUT < s.len() {
        return Err(Refusal::InputTooLong);
    }
    if s.len() < at || s.len() - at < width {
        return Err(Refusal::Truncated);
    }
    // `as`: a number of at most four bytes, so nothing is lost.
    let value = place::number(s, at, width) as u32;
    let after = at + width;
    Ok((value, after))
}
