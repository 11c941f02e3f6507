// Internal: the answer line, which is written from its front on, and hexadecimal digits.
ghost use Rattle.std.specs.Prelude.{◌≡◌, ◌-◌, ◌≤◌};

// a + b, 0 if it does not fit.
pub fn plus(a: usize, b: usize) -> usize {
    a.checked_add(b).unwrap_or(0)
}

// The first n bytes of a slice; empty if there are fewer.
pub fn front(s: &[u8], n: usize) -> &[u8] {
    if n <= s.len() {
        return &s[0..n];
    }
    &s[..0]
}

// Puts one character at a place and returns the place after it; a full text does not change.
pub fn put(text: &mut [u8], at: usize, c: u8) -> usize {
    if at < text.len() {
        text[at] = c;
        return at + 1;
    }
    at
}

// The hexadecimal digit of a number below 16.
fn digit(n: u8) -> u8 {
    if n < 10 {
        return 48 + n;
    }
    if n < 16 {
        return 87 + n;
    }
    63
}

// The value of a hexadecimal digit in lower case, 0 for any other character.
fn value(c: u8) -> u8
    ensures { result ≤ 15 }
{
    match c {
        48..=57 => c - 48,
        97..=102 => c - 87,
        _ => 0,
    }
}

// The byte of two digits at a place, 0 past the end.
fn byte_of(digits: &[u8], at: usize) -> u8 {
    let high = value(boxes::place::byte(digits, at));
    let low = value(boxes::place::byte(digits, plus(at, 1)));
    high * 16 + low
}

// Fills `bytes` with the bytes of the digits.
pub fn decode(digits: &[u8], bytes: &mut [u8]) {
    let mut at: usize = 0;
    for byte in bytes {
        *byte = byte_of(digits, at);
        at = plus(at, 2);
    }
}

// Puts a byte as two digits.
pub fn put_byte(text: &mut [u8], at: usize, b: u8) -> usize {
    let next = put(text, at, digit(b / 16));
    put(text, next, digit(b % 16))
}

// Puts bytes as digits.
pub fn put_digits(text: &mut [u8], at: usize, bytes: &[u8]) -> usize {
    let mut end = at;
    for &b in bytes {
        end = put_byte(text, end, b);
    }
    end
}

// Puts characters as they are.
pub fn put_all(text: &mut [u8], at: usize, chars: &[u8]) -> usize {
    let mut end = at;
    for &c in chars {
        end = put(text, end, c);
    }
    end
}

// Puts a number in decimal.
pub fn put_decimal(text: &mut [u8], at: usize, n: u64) -> usize {
    let next = if n < 10 {
        at
    } else {
        put_decimal(text, at, n / 10)
    };
    // `as`: below 10, so nothing is lost.
    put(text, next, 48 + (n % 10) as u8)
}

// Puts a space and a number.
pub fn put_number(text: &mut [u8], at: usize, n: u64) -> usize {
    let next = put(text, at, b' ');
    put_decimal(text, next, n)
}

// Puts numbers, each after a space.
pub fn put_numbers(text: &mut [u8], at: usize, numbers: &[u64]) -> usize {
    let mut end = at;
    for &n in numbers {
        end = put_number(text, end, n);
    }
    end
}

// Puts a space, an equals sign and bytes as digits.
pub fn put_bytes(text: &mut [u8], at: usize, bytes: &[u8]) -> usize {
    let next = put_all(text, at, b" =");
    put_digits(text, next, bytes)
}
