// Answers cases from standard input: each case is one public call on given input, each answer one line. The form of cases and answers is in the
// README.md beside src/.
#![tactic(auto)]

ghost use Rattle.std.specs.Prelude.{◌≡◌, ◌≤◌, length, IfOk, vec_len};

use replay_text::{fields, text};
use std::alloc::{AllocError, Global};
use std::io::{Input, Read};

// Reads until the buffer is full, the input ends or a read fails, and returns how many bytes now are at the front of the buffer.
fn read_full(from: &mut impl Read, buf: &mut [u8]) -> usize
    ensures { result ≤ length buf.new }
{
    let mut done: usize = 0;
    // No `for`: a turn reads as much as the system gives.
    while done < buf.len() {
        let Ok(more) = from.read(&mut buf[done..]) else {
            break;
        };
        if more == 0 {
            break;
        }
        done += more;
    }
    done
}

// Reads some of `count` characters and returns how many are left.
fn skip_some(from: &mut impl Read, count: usize, space: &mut [u8]) -> usize {
    let n = count.min(space.len());
    if space.len() < n {
        return count;
    }
    let got = read_full(from, &mut space[0..n]);
    count.saturating_sub(got)
}

// Reads `count` characters and drops them; false if the input ends before.
fn skip(from: &mut impl Read, count: usize, space: &mut [u8]) -> bool {
    let mut left = count;
    // No `for`: a turn reads as much as the system gives.
    while 0 < left {
        let next = skip_some(from, left, space);
        if left <= next {
            return false;
        }
        left = next;
    }
    true
}

// Answers a case of `n` bytes, whose digits come next on the input; false if the input or the output ends.
fn answer(
    rt: &impl Print,
    from: &mut impl Read,
    n: usize,
    space: &mut [u8],
    input: &mut [u8],
    out: &mut [u8],
) -> bool {
    let chars = text::plus(text::plus(n, n), 1);
    if input.len() < n || space.len() < chars {
        if !skip(from, chars, space) {
            return false;
        }
        return rt.write_all(b"case too long\n").is_ok();
    }
    let got = read_full(from, &mut space[0..chars]);
    if got < chars {
        return false;
    }
    text::decode(space, &mut input[0..n]);
    let end = replay_calls::replay_line(text::front(input, n), out, space);
    rt.write_all(text::front(space, end)).is_ok()
}

// One case: its length in bytes as eight hexadecimal digits, a space, its digits and a line end.
fn turn(
    rt: &impl Print,
    from: &mut impl Read,
    space: &mut [u8],
    input: &mut [u8],
    out: &mut [u8],
) -> bool {
    let mut head = [0u8; 9];
    let got = read_full(from, &mut head);
    if got < 9 {
        return false;
    }
    let mut length = [0u8; 4];
    text::decode(&head, &mut length);
    answer(rt, from, fields::length(&length, 0), space, input, out)
}

// Answers all cases. A proved loop has to end, so it counts its turns down from a number that no run reaches.
fn replay(rt: &(impl Print + Input), space: &mut [u8], input: &mut [u8], out: &mut [u8]) {
    let mut from = rt.reader();
    let mut turns = u64::MAX;
    while 0 < turns && turn(rt, &mut from, space, input, out) {
        turns -= 1;
    }
}

// Zeros for a line: the digits of a case, or those of a case and its output, and numbers.
fn line_space(alloc: Global) -> Result<Vec<u8>, AllocError>
    ensures { IfOk result (λ v. vec_len v ≡ 1204096) }
{
    Ok(vec![in alloc; 0; 1204096]?)
}

// Zeros for a case, or for the output of its call.
fn case_space(alloc: Global) -> Result<Vec<u8>, AllocError>
    ensures { IfOk result (λ v. vec_len v ≡ 524288) }
{
    Ok(vec![in alloc; 0; 524288]?)
}

fn main(rt: HostRuntime) -> Result<(), AllocError> {
    let mut space = line_space(rt.alloc())?;
    let mut input = case_space(rt.alloc())?;
    let mut out = case_space(rt.alloc())?;
    replay(&rt, &mut space, &mut input, &mut out);
    Ok(())
}
