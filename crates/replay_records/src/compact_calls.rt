// Internal: the calls of `compact` and `expand`.
use boxes::place;
use expand::Picture;
use replay_text::{fields, shown, text};

// `compact_read::parse`: flag, prefix size, unit count and the length of the list.
fn parse(s: &[u8], lent: &mut [u8], out: &mut [u8], at: usize) -> usize {
    match compact_read::parse(s, lent) {
        Ok(read) => {
            let numbers = [
                u64::from(read.config.length_size),
                // `as`: u64 has no From of a usize; nothing is lost.
                read.unit_count as u64,
                read.list_length as u64,
            ];
            let next = shown::flag(out, at, read.config.multi_layer_flag);
            text::put_numbers(out, next, &numbers)
        }
        Err(e) => shown::refused(out, at, e),
    }
}

// `to_full`: the answer and the head; on a refusal a head of zeros.
fn to_full(numbers: &[u8], list: &[u8], lent: &mut [u8], out: &mut [u8], at: usize) -> usize {
    let config = replay_heads::compact_head(numbers);
    let picture = Picture {
        chroma_format_idc: place::byte(numbers, 2),
        bit_depth: place::byte(numbers, 3),
        width: fields::four(numbers, 4),
        height: fields::four(numbers, 8),
    };
    match expand::to_full(config, list, picture, lent) {
        Ok(expanded) => {
            let next = shown::number(out, at, expanded.list_length);
            replay_heads::put_full_head(out, next, expanded.head)
        }
        Err(e) => {
            let next = shown::refused(out, at, e);
            replay_heads::put_full_head(out, next, full::plain_head(0))
        }
    }
}

// The calls by their numbers, which are those of the format of a case (crates/replay/README.md).
pub fn answer(
    op: u8,
    numbers: &[u8],
    s: &[u8],
    lent: &mut [u8],
    out: &mut [u8],
    at: usize,
) -> usize {
    let config = replay_heads::compact_head(numbers);
    match op {
        28 => parse(s, lent, out, at),
        29 => shown::counted(out, at, compact_write::serialize(config, s, lent)),
        30 => shown::counted(out, at, item_data::item_data(config, s, lent)),
        31 => shown::counted(out, at, item_data::strip_item_data(config, s, lent)),
        _ => to_full(numbers, s, lent, out, at),
    }
}
