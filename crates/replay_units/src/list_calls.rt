// Internal: the calls of `list_units`.
use boxes::place;
use replay_text::{fields, shown};

// The calls by their numbers, which are those of the format of a case (crates/replay/README.md).
pub fn answer(op: u8, numbers: &[u8], list: &[u8], text: &mut [u8], at: usize) -> usize {
    let t = place::byte(numbers, 0);
    let k = fields::place(numbers, 1);
    match op {
        14 => shown::counted(text, at, list_units::nal_count(list)),
        15 => shown::part(text, at, list_units::nal_unit(list, k)),
        16 => shown::counted(text, at, list_units::nal_count_of_type(list, t)),
        17 => shown::part(text, at, list_units::nal_unit_of_type(list, t, k)),
        40 => shown::place(text, at, list_units::nal_unit_at(list, k)),
        _ => shown::place(text, at, list_units::nal_unit_of_type_at(list, t, k)),
    }
}
