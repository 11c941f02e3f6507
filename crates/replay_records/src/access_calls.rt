// Internal: the calls of `access_unit_sizes`, `access_unit_annex_b` and `access_unit_nal`.
use access_unit::{Source, StartCodes};
use full::VvcConfig;
use replay_text::{fields, shown};

// The caller's target: whether there is one, and its two bytes.
fn target_of(numbers: &[u8]) -> Option<u16> {
    if fields::flag(numbers, 0) {
        return Some(fields::two(numbers, 1));
    }
    None
}

// `access_unit_annex_b`
fn stream(
    head: VvcConfig,
    list: &[u8],
    item: &[u8],
    tols: Option<u16>,
    codes: StartCodes,
    lent: &mut [u8],
    text: &mut [u8],
    at: usize,
) -> usize {
    shown::counted(
        text,
        at,
        access_unit_annex_b::access_unit_annex_b(head, list, item, tols, codes, lent),
    )
}

// `access_unit_count`
fn count(
    head: VvcConfig,
    list: &[u8],
    item: &[u8],
    tols: Option<u16>,
    text: &mut [u8],
    at: usize,
) -> usize {
    shown::counted(
        text,
        at,
        access_unit_sizes::access_unit_count(head, list, item, tols),
    )
}

// `access_unit_nal`
fn unit<'a>(
    head: VvcConfig,
    list: &'a [u8],
    item: &'a [u8],
    tols: Option<u16>,
    k: usize,
    text: &mut [u8],
    at: usize,
) -> usize {
    shown::part(
        text,
        at,
        access_unit_nal::access_unit_nal(head, list, item, tols, k),
    )
}

// `access_unit_nal_at`: 1 or 2 for the list or the item, start and length; 0 past the last unit.
fn unit_at(
    head: VvcConfig,
    list: &[u8],
    item: &[u8],
    tols: Option<u16>,
    k: usize,
    text: &mut [u8],
    at: usize,
) -> usize {
    match access_unit_nal::access_unit_nal_at(head, list, item, tols, k) {
        Ok(Some(Source::OfList(a))) => shown::lying(text, at, 1, a),
        Ok(Some(Source::OfItem(a))) => shown::lying(text, at, 2, a),
        Ok(None) => shown::number(text, at, 0),
        Err(e) => shown::refused(text, at, e),
    }
}

// The calls by their numbers, which are those of the format of a case (crates/replay/README.md). Target, k and head are among the numbers of the case.
pub fn answer<'a>(
    op: u8,
    fill: u8,
    numbers: &[u8],
    list: &'a [u8],
    item: &'a [u8],
    lent: &mut [u8],
    text: &mut [u8],
    at: usize,
) -> usize {
    let tols = target_of(numbers);
    let k = fields::place(numbers, 3);
    let head = replay_heads::full_head(numbers, 11, fill);
    match op {
        36 => stream(head, list, item, tols, StartCodes::Four, lent, text, at),
        37 => count(head, list, item, tols, text, at),
        38 => unit(head, list, item, tols, k, text, at),
        54 => stream(head, list, item, tols, StartCodes::Short, lent, text, at),
        _ => unit_at(head, list, item, tols, k, text, at),
    }
}
