// Internal: answers as text. The number of the refusal comes first, 0 if there is none.
use crate::text;
use boxes::Span;
use error::Refusal;

// Puts that a call was accepted: 0.
pub fn accepted(out: &mut [u8], at: usize) -> usize {
    text::put_number(out, at, 0)
}

// Puts a refusal's number.
pub fn refused(out: &mut [u8], at: usize, e: Refusal) -> usize {
    text::put_number(out, at, u64::from(error::number(e)))
}

// Puts one number of an accepted call.
pub fn number(out: &mut [u8], at: usize, n: usize) -> usize {
    let next = accepted(out, at);
    // `as`: u64 has no From of a usize; nothing is lost.
    text::put_number(out, next, n as u64)
}

// Puts two numbers of an accepted call.
pub fn pair(out: &mut [u8], at: usize, n: usize, m: usize) -> usize {
    let next = number(out, at, n);
    // `as`: u64 has no From of a usize; nothing is lost.
    text::put_number(out, next, m as u64)
}

// Puts a yes or no of an accepted call.
pub fn flag(out: &mut [u8], at: usize, yes: bool) -> usize {
    let next = accepted(out, at);
    text::put_number(out, next, u64::from(yes))
}

// Puts a count: of units, or of the bytes that were written.
pub fn counted(out: &mut [u8], at: usize, r: Result<usize, Refusal>) -> usize {
    match r {
        Ok(n) => number(out, at, n),
        Err(e) => refused(out, at, e),
    }
}

// Puts a field and the place after it.
pub fn field(out: &mut [u8], at: usize, r: Result<(u32, usize), Refusal>) -> usize {
    match r {
        // `as`: usize has no From of a u32 or u64; nothing is lost.
        Ok((n, after)) => pair(out, at, n as usize, after),
        Err(e) => refused(out, at, e),
    }
}

// Puts a part, for a call that returns no refusal.
pub fn part(out: &mut [u8], at: usize, bytes: &[u8]) -> usize {
    let next = accepted(out, at);
    text::put_bytes(out, next, bytes)
}

// Puts the number of an input, and where a unit lies in it.
pub fn lying(out: &mut [u8], at: usize, which: usize, a: Span) -> usize {
    let next = pair(out, at, which, a.start);
    // `as`: u64 has no From of a usize; nothing is lost.
    text::put_number(out, next, a.len as u64)
}

// Puts where a unit lies, and the place after it.
pub fn span(out: &mut [u8], at: usize, a: Span, after: usize) -> usize {
    let next = lying(out, at, 1, a);
    // `as`: u64 has no From of a usize; nothing is lost.
    text::put_number(out, next, after as u64)
}

// Puts where unit k lies in the first input: 1, start and length; 0 past the last unit.
pub fn place(out: &mut [u8], at: usize, r: Result<Option<Span>, Refusal>) -> usize {
    match r {
        Ok(Some(a)) => lying(out, at, 1, a),
        Ok(None) => number(out, at, 0),
        Err(e) => refused(out, at, e),
    }
}
