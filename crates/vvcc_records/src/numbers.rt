// Internal: turns the answer of reading a record into a struct of numbers.
ghost use Rattle.std.specs.Prelude.{◌≡◌};
ghost use Rattle.parse.specs.Answers.{answer_of};
ghost use Rattle.vvcc_answers.specs.Answers.{read_answer};

use error::{Refusal, number};
use full::VvcConfig;
use record_arrays::ParsedRecord;
use vvcc_answers::VvccRead;

// The answer of a call that reads a record.
pub fn consumed(read: Result<ParsedRecord<VvcConfig>, Refusal>) -> VvccRead
    ensures { result ≡ read_answer (answer_of read) }
{
    match read {
        Ok(read) => VvccRead {
            refusal: 0,
            consumed: read.consumed,
        },
        Err(e) => VvccRead {
            refusal: number(e),
            consumed: 0,
        },
    }
}
