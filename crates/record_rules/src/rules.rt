// Internal: both rules on a record whose head was read.
ghost use Rattle.std.specs.Prelude.{◌≡◌, ◌&&◌, ◌≤◌, ◌^◌, length};
ghost use Rattle.parse.specs.Answers.{answer_of};
ghost use Rattle.parse.specs.Outcome.{and_then};
ghost use Rattle.parse.specs.Parse.{outcome};
ghost use Rattle.full.specs.Strict.{holds_or};
ghost use Rattle.record_rules.specs.inner.Rules.{SmallHead, counted_bytes, rules_kept};

use super::{arrays, head};
use error::Refusal;
use full::VvcConfig;

// Refuses with the first rule that is broken, from the tests of the head's reserved bits, the arrays' reserved bits and the arrays' types.
fn decided(head_reserved: bool, reserved: bool, typed: bool) -> Result<(), Refusal>
    ensures { answer_of result ≡ and_then (holds_or 25 (head_reserved && reserved)) (λ _. holds_or 26 typed) }
{
    if !(head_reserved && reserved) {
        return Err(Refusal::ReservedBit);
    }
    if !typed {
        return Err(Refusal::ArrayType);
    }
    Ok(())
}

// Tests both rules on a record whose head ends at place `at`. Refusals: 25 for a reserved bit anywhere, else 26 for the type of an array. A
// record that ends too early breaks no rule.
pub fn check(record: &[u8], head: VvcConfig, at: usize) -> Result<(), Refusal>
    requires { (length «record».now ≤ 2 ^ 30) × SmallHead head }
    ensures { answer_of result ≡ rules_kept «record».now head (outcome (counted_bytes «record».now at)) }
{
    if record.len() <= at {
        return Ok(());
    }
    let count = usize::from(record[at]);
    let Some((reserved, typed)) = arrays::array_rules(record, at + 1, count) else {
        return Ok(());
    };
    decided(head::head_reserved(record, head), reserved, typed)
}
