// The walks over units and the unit check for C and Rust.
#![tactic(auto)]

pub mod numbers;

ghost use Rattle.std.specs.Prelude.{◌≡◌};
ghost use Rattle.unit_check.specs.Answers.{checked};
ghost use Rattle.annex_b.specs.Answers.{next_given};
ghost use Rattle.split.specs.Answers.{next_item_unit};
ghost use Rattle.vvcc_answers.specs.Answers.{unit_answer, check_answer};

use vvcc_answers::{VvccCheck, VvccUnit};

// The first unit of a stream whose start code is at or after the place `from`. Refusal: 23.
pub fn vvcc_next_unit(stream: &[u8], from: usize) -> VvccUnit
    ensures { result ≡ unit_answer (next_given stream.now from) }
{
    numbers::next(annex_b::next_unit(stream, from))
}

// The unit of an item whose length prefix is at the place `from`. Refusals: 23, 4, then in byte order 1 and 5.
pub fn vvcc_next_item_unit(item: &[u8], length_size: u8, from: usize) -> VvccUnit
    ensures { result ≡ unit_answer (next_item_unit length_size item.now from) }
{
    numbers::next(split::next_item_unit(item, length_size, from))
}

// Whether a unit has only bytes that H.266 allows in one. Refusal: 23.
pub fn vvcc_check_unit(unit: &[u8]) -> VvccCheck
    ensures { result ≡ check_answer (checked unit.now) }
{
    numbers::check(unit_check::check_unit(unit))
}
