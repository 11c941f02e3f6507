// Splits items into their units (SCOPE 3.12).
#![tactic(auto)]

pub mod walk;

ghost use Rattle.std.specs.Prelude.{◌≡◌};
ghost use Rattle.parse.specs.Answers.{answer_of};
ghost use Rattle.boxes.specs.Parts.{PartOf};
ghost use Rattle.boxes.specs.Walk.{count_found, found};
ghost use Rattle.boxes.specs.Places.{nth_found, PlaceFits};
ghost use Rattle.split.specs.Item.{split_item};
ghost use Rattle.split.specs.Answers.{next_item_unit};

use boxes::{Span, place};
use error::{LARGEST_INPUT, Refusal};

// A unit of an item or a stream, and the place to continue from.
#[derive(Clone, Copy, Debug, PartialEq, Eq)]
pub struct NextUnit {
    pub unit: Span,
    pub next: usize,
}

// How many units an item has. Refusals: 23, 4, then in byte order 1 and 5.
pub fn split_length_prefixed_count(item: &[u8], length_size: u8) -> Result<usize, Refusal>
    ensures { answer_of result ≡ count_found (split_item length_size item.now) }
{
    if LARGEST_INPUT < item.len() {
        return Err(Refusal::InputTooLong);
    }
    if place::outside(length_size) {
        return Err(Refusal::PrefixSize);
    }
    walk::item_count(item, usize::from(length_size))
}

// Where unit k of an item lies, counted from 0; none past the last. The whole item is read first: a refusal after unit k is the call's answer too.
// Refusals: 23, 4, then in byte order 1 and 5.
pub fn split_length_prefixed_at(
    item: &[u8],
    length_size: u8,
    k: usize,
) -> Result<Option<Span>, Refusal>
    ensures { (answer_of result ≡ nth_found (split_item length_size item.now) k) × PlaceFits item.now result }
{
    let count = split_length_prefixed_count(item, length_size)?;
    if count <= k {
        return Ok(None);
    }
    Ok(Some(walk::item_unit(item, usize::from(length_size), k)))
}

// Unit k of an item, as a part of it; the empty part past the last unit and on a refusal.
pub fn split_length_prefixed(item: &[u8], length_size: u8, k: usize) -> &[u8]
    ensures { PartOf result item.entry (found (split_item length_size item.now) k) }
{
    let unit = split_length_prefixed_at(item, length_size, k);
    place::part_at(item, unit)
}

// The unit whose length is at a place of an item, and the place to continue from; none at the end. Refusals: 23, 4, then in byte order 1 and 5.
pub fn next_item_unit(
    item: &[u8],
    length_size: u8,
    from: usize,
) -> Result<Option<NextUnit>, Refusal>
    ensures { answer_of result ≡ next_item_unit length_size item.now from }
{
    if LARGEST_INPUT < item.len() {
        return Err(Refusal::InputTooLong);
    }
    if place::outside(length_size) {
        return Err(Refusal::PrefixSize);
    }
    if item.len() <= from {
        return Ok(None);
    }
    walk::item_step(item, usize::from(length_size), from)
}
