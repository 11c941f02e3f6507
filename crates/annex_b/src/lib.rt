// Splits streams into their units (SCOPE 3.13).
#![tactic(auto)]

pub mod walk;

ghost use Rattle.std.specs.Prelude.{◌≡◌};
ghost use Rattle.parse.specs.Answers.{answer_of};
ghost use Rattle.boxes.specs.Parts.{PartOf};
ghost use Rattle.boxes.specs.Walk.{count_found, found};
ghost use Rattle.boxes.specs.Places.{nth_found, PlaceFits};
ghost use Rattle.annex_b.specs.Stream.{split_stream};
ghost use Rattle.annex_b.specs.Answers.{next_given};

use boxes::{Span, place};
use error::{LARGEST_INPUT, Refusal};
use split::NextUnit;

// The first unit whose start code is at or after a place, and the place to continue from; none at the end. Refusal: 23.
pub fn next_unit(stream: &[u8], from: usize) -> Result<Option<NextUnit>, Refusal>
    ensures { answer_of result ≡ next_given stream.now from }
{
    if LARGEST_INPUT < stream.len() {
        return Err(Refusal::InputTooLong);
    }
    if stream.len() <= from {
        return Ok(None);
    }
    walk::unit_from(stream, from)
}

// How many units a stream has. Refusal: 23.
pub fn split_annex_b_count(stream: &[u8]) -> Result<usize, Refusal>
    ensures { answer_of result ≡ count_found (split_stream stream.now) }
{
    let mut at: usize = 0;
    let mut n: usize = 0;
    while let Some(step) = next_unit(stream, at)? {
        n += 1;
        at = step.next;
    }
    Ok(n)
}

// Where unit k of a stream lies, counted from 0; none past the last. Refusal: 23.
pub fn split_annex_b_at(stream: &[u8], k: usize) -> Result<Option<Span>, Refusal>
    ensures { (answer_of result ≡ nth_found (split_stream stream.now) k) × PlaceFits stream.now result }
{
    let mut at: usize = 0;
    let mut left = k;
    while let Some(found) = next_unit(stream, at)? {
        if left == 0 {
            return Ok(Some(found.unit));
        }
        left -= 1;
        at = found.next;
    }
    Ok(None)
}

// Unit k of a stream, as a part of it; the empty part past the last unit and on a refusal.
pub fn split_annex_b(stream: &[u8], k: usize) -> &[u8]
    ensures { PartOf result stream.entry (found (split_stream stream.now) k) }
{
    let unit = split_annex_b_at(stream, k);
    place::part_at(stream, unit)
}
