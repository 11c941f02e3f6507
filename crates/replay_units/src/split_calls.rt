// Internal: the calls of `split` and of `annex_b`.
use boxes::place;
use error::Refusal;
use replay_text::{fields, shown};
use split::NextUnit;

// Puts the next unit: 1, where it lies and the place after it, or 0 if there is none.
fn next(r: Result<Option<NextUnit>, Refusal>, text: &mut [u8], at: usize) -> usize {
    match r {
        Ok(Some(step)) => shown::span(text, at, step.unit, step.next),
        Ok(None) => shown::number(text, at, 0),
        Err(e) => shown::refused(text, at, e),
    }
}

// The calls by their numbers, which are those of the format of a case (crates/replay/README.md).
pub fn answer(op: u8, numbers: &[u8], s: &[u8], text: &mut [u8], at: usize) -> usize {
    let size = place::byte(numbers, 0);
    let k = fields::place(numbers, 1);
    match op {
        23 => shown::counted(text, at, split::split_length_prefixed_count(s, size)),
        24 => shown::part(text, at, split::split_length_prefixed(s, size, k)),
        25 => shown::counted(text, at, annex_b::split_annex_b_count(s)),
        26 => shown::part(text, at, annex_b::split_annex_b(s, k)),
        27 => next(annex_b::next_unit(s, k), text, at),
        39 => next(split::next_item_unit(s, size, k), text, at),
        42 => shown::place(text, at, split::split_length_prefixed_at(s, size, k)),
        _ => shown::place(text, at, annex_b::split_annex_b_at(s, k)),
    }
}
