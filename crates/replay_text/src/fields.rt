// Internal: numbers in the bytes of a case; a byte past the end is read as 0.
use crate::text;
use boxes::place;

// A flag: any byte but 0 is yes.
pub fn flag(s: &[u8], at: usize) -> bool {
    place::byte(s, at) != 0
}

// A number of two bytes.
pub fn two(s: &[u8], at: usize) -> u16 {
    let next = text::plus(at, 1);
    u16::from_be_bytes([place::byte(s, at), place::byte(s, next)])
}

// A number of four bytes.
pub fn four(s: &[u8], at: usize) -> u32 {
    let low = two(s, text::plus(at, 2));
    u32::from(two(s, at)) * 65536 + u32::from(low)
}

// A number of eight bytes.
pub fn eight(s: &[u8], at: usize) -> u64 {
    let low = four(s, text::plus(at, 4));
    u64::from(four(s, at)) * 4294967296 + u64::from(low)
}

// A place or a length, in eight bytes.
pub fn place(s: &[u8], at: usize) -> usize {
    // `as`: usize has no From of a u32 or u64; nothing is lost.
    eight(s, at) as usize
}

// A length, in four bytes.
pub fn length(s: &[u8], at: usize) -> usize {
    // `as`: usize has no From of a u32 or u64; nothing is lost.
    four(s, at) as usize
}
