// Internal to the program `still_main`: its answer to standard input, which is the length of a compact record in two bytes, the record, and the stored
// bytes.
#![tactic(auto)]

ghost use Rattle.std.specs.Prelude.{◌≡◌};
ghost use Rattle.parse.specs.Outcome.{lent_output, counted};
ghost use Rattle.parse.specs.Answers.{answer_of};
ghost use Rattle.still_input.specs.Input.{input_stream};

use access_unit::StartCodes;
use boxes::{chunks, place};
use error::Refusal;

// The longest standard input that is accepted: 64 KiB.
const LONGEST: usize = 65536;

// The stream of the still that an input holds. Refusals: 23 above 64 KiB, 1 where the compact record runs past the end; those of `still_stream`.
pub fn input_stream(input: &[u8], out: &mut [u8]) -> Result<usize, Refusal>
    ensures { (answer_of result, out.new) ≡ lent_output (counted (input_stream input.now)) out.old }
{
    if LONGEST < input.len() {
        return Err(Refusal::InputTooLong);
    }
    let Some(a) = chunks::chunk(input, 0, input.len(), 2) else {
        return Err(Refusal::Truncated);
    };
    let after = a.start + a.len;
    still_stream::still_stream(
        place::part(input, a),
        &input[after..],
        None,
        StartCodes::Four,
        out,
    )
}
