// A case of `replay` taken apart, the call that it names, and the whole answer line.
#![tactic(auto)]

use boxes::place;
use replay_records::{access_calls, compact_calls, full_calls, version_calls};
use replay_text::{fields, text};
use replay_units::{boxes_calls, list_calls, nal_calls, split_calls};

// The bytes of a case from a place on; empty if they run past the end.
fn part(s: &[u8], start: usize, len: usize) -> &[u8] {
    if s.len() < start {
        return &s[..0];
    }
    if s.len() - start < len {
        return &s[..0];
    }
    let end = start + len;
    &s[start..end]
}

// The calls by their numbers, as in README.md of `replay`.
fn answer<'a>(
    op: u8,
    fill: u8,
    numbers: &[u8],
    first: &'a [u8],
    second: &'a [u8],
    lent: &mut [u8],
    out: &mut [u8],
    at: usize,
) -> usize {
    match op {
        1 | 3..=5 => boxes_calls::answer(op, numbers, first, out, at),
        6..=13 => nal_calls::answer(op, numbers, first, out, at),
        14..=17 | 40 | 41 => list_calls::answer(op, numbers, first, out, at),
        18..=22 | 45 => replay_params::answer(op, fill, numbers, first, lent, out, at),
        23..=27 | 39 | 42 | 43 => split_calls::answer(op, numbers, first, out, at),
        28..=31 | 35 => compact_calls::answer(op, numbers, first, lent, out, at),
        2 | 32..=34 | 46..=50 | 53 => full_calls::answer(op, fill, numbers, first, lent, out, at),
        51 | 52 => replay_hevc::answer(op, numbers, first, lent, out, at),
        55..=58 => replay_directory::answer(op, numbers, first, second, out, at),
        59 | 60 => version_calls::answer(op, first, lent, out, at),
        36..=38 | 44 | 54 => access_calls::answer(op, fill, numbers, first, second, lent, out, at),
        _ => text::put_all(out, at, b" no such call"),
    }
}

// The answer to a case whose three byte strings have these lengths: the call's number, its answer, and the lent memory after the call.
fn answered(input: &[u8], n: usize, m: usize, k: usize, lent: &mut [u8], out: &mut [u8]) -> usize {
    let op = place::byte(input, 0);
    let fill = place::byte(input, 1);
    let second_at = text::plus(18, n);
    let third_at = text::plus(second_at, m);
    let numbers = part(input, 18, n);
    let first = part(input, second_at, m);
    let second = part(input, third_at, k);
    lent.fill(fill);
    let at = text::put_decimal(out, 0, u64::from(op));
    let after = answer(op, fill, numbers, first, second, lent, out, at);
    let shown = text::put_bytes(out, after, lent);
    text::put(out, shown, b'\n')
}

// The greatest length of the answer line of a case with so much input and output: the digits of both, and the numbers.
fn longest_line(input: usize, room: usize) -> usize {
    let bytes = text::plus(input, room);
    text::plus(4096, text::plus(bytes, bytes))
}

// Writes the answer line of a case and returns its length.
pub fn replay_line(input: &[u8], lent: &mut [u8], out: &mut [u8]) -> usize {
    let room = fields::length(input, 2);
    let n = fields::length(input, 6);
    let m = fields::length(input, 10);
    let k = fields::length(input, 14);
    if input.len() != text::plus(18, text::plus(n, text::plus(m, k))) {
        return text::put_all(out, 0, b"malformed case\n");
    }
    if lent.len() < room || out.len() < longest_line(input.len(), room) {
        return text::put_all(out, 0, b"case too long\n");
    }
    answered(input, n, m, k, &mut lent[0..room], out)
}
