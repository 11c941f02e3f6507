// Internal: the calls of `nal` and of `unit_check`.
use boxes::place;
use error::Refusal;
use nal::UnitKind;
use replay_text::{shown, text};

// Puts a field of a header: 1 and its number, or 0 if it is absent.
fn put_field(out: &mut [u8], at: usize, r: Result<Option<u8>, Refusal>) -> usize {
    match r {
        Ok(Some(v)) => shown::pair(out, at, 1, usize::from(v)),
        Ok(None) => shown::number(out, at, 0),
        Err(e) => shown::refused(out, at, e),
    }
}

// `check_unit`: 1 for yes, 0 for no.
fn put_check(out: &mut [u8], at: usize, r: Result<bool, Refusal>) -> usize {
    match r {
        Ok(passes) => shown::flag(out, at, passes),
        Err(e) => shown::refused(out, at, e),
    }
}

// `unit_kind`: the number of the kind, from 0 in their order in `nal`, and the type if the kind has one.
fn put_kind(out: &mut [u8], at: usize, kind: UnitKind) -> usize {
    match kind {
        UnitKind::PictureData(t) => shown::pair(out, at, 0, usize::from(t)),
        UnitKind::Record(t) => shown::pair(out, at, 1, usize::from(t)),
        UnitKind::Aud => shown::number(out, at, 2),
        UnitKind::Other => shown::number(out, at, 3),
    }
}

// `nal_header`
fn put_header(numbers: &[u8], out: &mut [u8], at: usize) -> usize {
    let t = place::byte(numbers, 0);
    let layer = place::byte(numbers, 1);
    let temporal = place::byte(numbers, 2);
    let bytes = nal::nal_header(t, layer, temporal);
    let next = shown::accepted(out, at);
    text::put_bytes(out, next, &bytes)
}

// The calls by their numbers, which are those of the format of a case (crates/replay/README.md).
pub fn answer(op: u8, numbers: &[u8], s: &[u8], out: &mut [u8], at: usize) -> usize {
    let t = place::byte(numbers, 0);
    match op {
        6 => put_field(out, at, nal::nal_unit_type(s)),
        7 => put_field(out, at, nal::nal_layer_id(s)),
        8 => put_field(out, at, nal::nal_temporal_id_plus1(s)),
        9 => put_check(out, at, unit_check::check_unit(s)),
        10 => put_header(numbers, out, at),
        11 => put_kind(out, at, nal::unit_kind(t)),
        12 => shown::flag(out, at, nal::is_vcl(t)),
        _ => shown::flag(out, at, nal::is_record_nal_type(t)),
    }
}
