// Internal: the calls of `error` and `boxes`.
use boxes::place;
use error::Refusal;
use replay_text::{fields, shown};

// `number`: the refusal that a case names, by its number; any other number up to 12 is taken as 12, any above as 29.
fn refusal(n: u8) -> Refusal {
    let last = if n < 13 {
        Refusal::CodeTooLong
    } else {
        Refusal::TooLongToNarrow
    };
    Refusal::try_from(u32::from(n)).unwrap_or(last)
}

// The calls by their numbers, which are those of the format of a case (crates/replay/README.md).
pub fn answer(op: u8, numbers: &[u8], s: &[u8], text: &mut [u8], at: usize) -> usize {
    let from = fields::place(numbers, 0);
    match op {
        1 => shown::refused(text, at, refusal(place::byte(numbers, 0))),
        3 => shown::field(text, at, boxes::u8_at(s, from)),
        4 => shown::field(text, at, boxes::u16_at(s, from)),
        _ => shown::field(text, at, boxes::u32_at(s, from)),
    }
}
