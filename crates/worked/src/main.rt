// The worked bytes of SCOPE 7 that are run: each line says which call is made and what it returns. The others are proved in `path`.
#![tactic(auto)]

use bit_reader::{BitPosition, FIRST_BIT};
use compact::CompactVvcConfig;
use error::Refusal;
use replay_text::text;

// Writes a line to standard output.
fn show(rt: &impl Print, line: &mut [u8], end: usize) {
    let next = text::put(line, end, b'\n');
    let _ = rt.write_all(text::front(line, next));
}

// Puts a refusal's number.
fn put_refused(line: &mut [u8], at: usize, n: u32) -> usize {
    let next = text::put_all(line, at, b" refused with");
    text::put_number(line, next, u64::from(n))
}

// Puts the number of bytes that a call wrote and the bytes, or its refusal.
fn put_written(line: &mut [u8], at: usize, r: Result<usize, Refusal>, out: &[u8]) -> usize {
    match r {
        Ok(n) => {
            // `as`: u64 has no From of a usize; nothing is lost.
            let next = text::put_number(line, at, n as u64);
            let said = text::put_all(line, next, b" bytes ");
            text::put_digits(line, said, text::front(out, n))
        }
        Err(e) => put_refused(line, at, error::number(e)),
    }
}

// Restores the item of stored bytes, flag clear, prefix size 1.
fn restore(rt: &impl Print, stored: &[u8]) {
    let config = CompactVvcConfig {
        multi_layer_flag: false,
        length_size: 1,
    };
    let mut out = [0u8; 300];
    let r = item_data::item_data(config, stored, &mut out);
    let mut line = [0u8; 700];
    // `as`: u64 has no From of a usize; nothing is lost.
    let first = text::put_decimal(&mut line, 0, stored.len() as u64);
    let next = text::put_all(
        &mut line,
        first,
        b" stored bytes 9a, flag clear, size 1, restore to:",
    );
    let end = put_written(&mut line, next, r, &out);
    show(rt, &mut line, end);
}

// Strips an item, flag clear, prefix size 4.
fn strip(rt: &impl Print, item: &[u8]) {
    let config = CompactVvcConfig {
        multi_layer_flag: false,
        length_size: 4,
    };
    let mut out = [0u8; 16];
    let r = item_data::strip_item_data(config, item, &mut out);
    let mut line = [0u8; 200];
    let first = text::put_digits(&mut line, 0, item);
    let next = text::put_all(&mut line, first, b", flag clear, size 4, strips to:");
    let end = put_written(&mut line, next, r, &out);
    show(rt, &mut line, end);
}

// Puts the value of an Exp-Golomb code and the number of its bits, or the refusal.
fn put_code(line: &mut [u8], at: usize, r: Result<(u32, BitPosition), Refusal>) -> usize {
    match r {
        Ok((v, p)) => {
            let next = text::put_number(line, at, u64::from(v));
            // `as`: u64 has no From of a usize; nothing is lost.
            text::put_number(line, next, p.0 as u64)
        }
        Err(e) => put_refused(line, at, error::number(e)),
    }
}

// Reads an Exp-Golomb code (SCOPE 3.5).
fn code(rt: &impl Print, s: &[u8]) {
    if 1024 < s.len() {
        return;
    }
    let r = bit_reader::bits::exp_golomb(s, FIRST_BIT);
    let mut line = [0u8; 200];
    let first = text::put_digits(&mut line, 0, s);
    let next = text::put_all(&mut line, first, b" as Exp-Golomb:");
    let end = put_code(&mut line, next, r);
    show(rt, &mut line, end);
}

fn main(rt: HostRuntime) {
    let fits = [0x9au8; 253];
    restore(&rt, &fits);
    let too_long = [0x9au8; 254];
    restore(&rt, &too_long);
    strip(&rt, b"\x00\x00\x00\x03\x40\x41\x9a");
    code(&rt, b"\x00\x00\x00");
}
