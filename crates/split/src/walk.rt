// Internal: walks over the units of an item.
ghost use Rattle.std.specs.Prelude.{◌≡◌, ◌+◌, ◌≤◌, ◌^◌, length};
ghost use Rattle.parse.specs.Answers.{answer_of};
ghost use Rattle.boxes.specs.Walk.{count_found, found};
ghost use Rattle.split.specs.Answers.{item_step};
ghost use Rattle.split.specs.inner.Walk.{item_units_from, HasUnit};

use super::NextUnit;
use boxes::{Span, place};
use error::Refusal;

// The unit whose length is at a place of an item, and the place after it; at the end there is none. Refusals in byte order: 1 and 5.
pub fn item_step(item: &[u8], size: usize, at: usize) -> Result<Option<NextUnit>, Refusal>
    requires { (1 ≤ size) × (size ≤ 4) × (at ≤ length item.now) × (length item.now ≤ 2 ^ 30) }
    ensures { answer_of result ≡ item_step size item.now at }
{
    let left = item.len() - at;
    if left == 0 {
        return Ok(None);
    }
    if left < size {
        return Err(Refusal::Truncated);
    }
    let start = at + size;
    let len = place::number(item, at, size);
    if len == 0 {
        return Err(Refusal::ZeroLengthUnit);
    }
    if left - size < len {
        return Err(Refusal::Truncated);
    }
    Ok(Some(NextUnit {
        unit: Span { start, len },
        next: start + len,
    }))
}

// How many units an item has. Refusals in byte order: 1 and 5.
pub fn item_count(item: &[u8], size: usize) -> Result<usize, Refusal>
    requires { (1 ≤ size) × (size ≤ 4) × (length item.now ≤ 2 ^ 30) }
    ensures { answer_of result ≡ count_found (item_units_from size item.now 0) }
{
    let mut at: usize = 0;
    let mut n: usize = 0;
    // No `for`: a step can be refused, and `?` ends the loop there.
    while let Some(step) = item_step(item, size, at)? {
        n += 1;
        at = step.next;
    }
    Ok(n)
}

// Where unit k lies in an item that has more than k units.
pub fn item_unit(item: &[u8], size: usize, k: usize) -> Span
    requires { (1 ≤ size) × (size ≤ 4) × (length item.now ≤ 2 ^ 30) × HasUnit (item_units_from size item.now 0) k }
    ensures { (result ≡ found (item_units_from size item.now 0) k) × (result.start + result.len ≤ length item.now) }
{
    let mut at: usize = 0;
    let mut skip = k;
    // No `for`: there is no type for a walk over an item whose units were measured.
    while let Some(step) = item_step(item, size, at).unwrap_or(None) {
        if skip == 0 {
            return step.unit;
        }
        skip -= 1;
        at = step.next;
    }
    Span { start: 0, len: 0 }
}
