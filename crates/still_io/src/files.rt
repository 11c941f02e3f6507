// Internal: reads and writes whole files. What fails is reported on standard error.
ghost use Rattle.std.specs.Prelude.{◌≤◌, length, IfOk, IfSome};

use crate::say;
use std::env::FillError;
use std::io::{Read, Write};
use std::rt::{Env, Files};
use std::{fs, io, str};

// Reads to the end of an open file, or until the buffer is full.
fn read_to_end(from: &mut impl Read, buf: &mut [u8]) -> io::Result<usize>
    ensures { IfOk result (λ n. n ≤ length buf.new) }
{
    let mut done: usize = 0;
    // No `for`: a turn reads as much as the system gives.
    while done < buf.len() {
        let more = from.read(&mut buf[done..])?;
        if more == 0 {
            break;
        }
        done += more;
    }
    Ok(done)
}

// Reads an open file of at most `most` bytes, and returns how many are now at the front of the buffer; none where it was not read whole. The buffer is
// longer than `most`, so that a longer file is noticed.
pub fn read_open(
    rt: &(impl Eprint + Alloc),
    from: &mut impl Read,
    name: &str,
    most: usize,
    buf: &mut [u8],
) -> Option<usize>
    ensures { IfSome result (λ n. n ≤ length buf.new) }
{
    match read_to_end(from, buf) {
        Ok(len) => {
            if most < len {
                say::too_long(rt, name, most);
                return None;
            }
            Some(len)
        }
        Err(e) => {
            say::failed(rt, "cannot read ", name, e);
            None
        }
    }
}

// Opens, reads and closes the file of a name, as `read_open` does.
fn read_named(
    rt: &(impl Files + Eprint + Alloc),
    name: &str,
    most: usize,
    buf: &mut [u8],
) -> Option<usize>
    ensures { IfSome result (λ n. n ≤ length buf.new) }
{
    match fs::open(rt, name) {
        Ok(mut file) => read_open(rt, &mut file, name, most, buf),
        Err(e) => {
            say::failed(rt, "cannot open ", name, e);
            None
        }
    }
}

// Whether the program was started with an argument i.
pub fn is_given(rt: &impl Env, i: usize) -> bool {
    !matches!(rt.arg(i, &mut []), Err(FillError::NotPresent))
}

// The file's name that argument i is, in the bytes of `path`. An argument that is none is reported.
fn name_of<'a>(rt: &(impl Env + Eprint), i: usize, path: &'a mut [u8]) -> Option<&'a str> {
    let len = match rt.arg(i, path) {
        Ok(len) => len,
        Err(FillError::TooLong) => {
            say::bad_argument(rt, i, "File name too long");
            return None;
        }
        Err(FillError::NotPresent) => {
            say::bad_argument(rt, i, "Invalid argument");
            return None;
        }
    };
    match str::from_utf8(&path[..len]) {
        Ok(name) => Some(name),
        Err(_) => {
            say::bad_argument(rt, i, "a file's name must be UTF-8");
            None
        }
    }
}

// Reads the file that argument i names, of at most `most` bytes, as `read_open` does.
pub fn read(
    rt: &(impl Env + Files + Eprint + Alloc),
    i: usize,
    most: usize,
    buf: &mut [u8],
) -> Option<usize>
    ensures { IfSome result (λ n. n ≤ length buf.new) }
{
    let mut path = [0u8; 4096];
    match name_of(rt, i, &mut path) {
        Some(name) => read_named(rt, name, most, buf),
        None => None,
    }
}

// Writes bytes to an open file, and returns whether all were written.
pub fn write_open(
    rt: &(impl Eprint + Alloc),
    to: &mut impl Write,
    name: &str,
    bytes: &[u8],
) -> bool {
    match to.write_all(bytes) {
        Ok(()) => true,
        Err(e) => {
            say::failed(rt, "cannot write all of ", name, e);
            false
        }
    }
}

// Opens, writes and closes the file of a name. What it held before is lost once it is open.
fn write_named(rt: &(impl Files + Eprint + Alloc), name: &str, bytes: &[u8]) {
    match fs::create(rt, name) {
        Ok(mut file) => {
            write_open(rt, &mut file, name, bytes);
        }
        Err(e) => say::failed(rt, "cannot open ", name, e),
    }
}

// Writes the file that argument i names.
pub fn write(rt: &(impl Env + Files + Eprint + Alloc), i: usize, bytes: &[u8]) {
    let mut path = [0u8; 4096];
    if let Some(name) = name_of(rt, i, &mut path) {
        write_named(rt, name, bytes);
    }
}
