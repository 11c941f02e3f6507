// Internal: the calls of `narrow`.
use replay_text::shown;

// The calls by their numbers, which are those of the format of a case (crates/replay/README.md).
pub fn answer(op: u8, list: &[u8], lent: &mut [u8], out: &mut [u8], at: usize) -> usize {
    match op {
        59 => shown::counted(out, at, narrow::narrow(list, lent)),
        _ => shown::counted(out, at, narrow::widen(list, lent)),
    }
}
