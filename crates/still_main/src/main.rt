// The program of the main job: from the compact record and the stored bytes of one still to its Annex B stream.
//
//     still_main RECORD STORED OUT     reads the files RECORD and STORED, and writes the file OUT
//     still_main < INPUT > OUT         INPUT is the record's length in two bytes, the record, and the stored bytes
//
// RECORD has at most 65,536 bytes, STORED at most 1,048,576, INPUT at most 65,536. A refusal is printed to standard output as its number,
// alone on a line, and to standard error in words; the file OUT is then neither created nor changed. Whatever else fails is reported on
// standard error: a file that cannot be opened, read or written in full, one that is too long, a name that is not UTF-8, a wrong number of
// arguments; but not what the system tells only as a file is closed. The exit status is 0 all the same; it is 1 only if there is no memory for
// the buffers.
#![tactic(auto)]

use access_unit::StartCodes;
use std::alloc::{AllocError, Global};
use std::io;
use std::io::Input;
use std::rt::{Env, Files};
use still_io::{files, ground, say};

// The longest file RECORD that is accepted: 64 KiB.
const LONGEST_RECORD: usize = 65536;

// The longest file STORED that is accepted: 1 MiB.
const LONGEST_STORED: usize = 1048576;

// Writes the answer to an input to standard output: the stream, or the refusal.
fn answer(rt: &(impl Print + Eprint + Alloc), input: &[u8], out: &mut [u8]) {
    match still_input::input_stream(input, out) {
        Ok(len) => {
            files::write_open(rt, &mut io::writer(rt), "standard output", &out[..len]);
        }
        Err(e) => ground::refused(rt, e),
    }
}

// Reads standard input, which is never too long for its buffer here: `input_stream` refuses it then.
fn answer_input(rt: &(impl Input + Print + Eprint + Alloc), input: &mut [u8], out: &mut [u8]) {
    let most = input.len();
    if let Some(n) = files::read_open(rt, &mut rt.reader(), "standard input", most, input) {
        answer(rt, &input[..n], out);
    }
}

// Writes the stream of a record and stored bytes to the file OUT. On a refusal that file is not opened.
fn convert(
    rt: &(impl Env + Files + Print + Eprint + Alloc),
    record: &[u8],
    stored: &[u8],
    out: &mut [u8],
) {
    match still_stream::still_stream(record, stored, None, StartCodes::Four, out) {
        Ok(len) => files::write(rt, 3, &out[..len]),
        Err(e) => ground::refused(rt, e),
    }
}

// Reads the files RECORD and STORED, and writes the file OUT.
fn convert_files(
    rt: &(impl Env + Files + Print + Eprint + Alloc),
    record: &mut [u8],
    stored: &mut [u8],
    out: &mut [u8],
) {
    let Some(m) = files::read(rt, 1, LONGEST_RECORD, record) else {
        return;
    };
    let Some(n) = files::read(rt, 2, LONGEST_STORED, stored) else {
        return;
    };
    convert(rt, &record[..m], &stored[..n], out);
}

// A buffer of n bytes.
fn buffer(alloc: Global, n: usize) -> Result<Vec<u8>, AllocError> {
    Ok(vec![in alloc; 0; n]?)
}

// Lends the buffers for standard input. The first has one byte more than is accepted, so that a longer input is noticed. The second is
// always long enough: a stream has at most 4*record_len + stored_len + 6 bytes with the multi-layer flag clear, and
// 4*record_len + 5*stored_len/2 with it set (crates/output_lengths); record_len + stored_len + 2 is at most 65536.
fn from_input(rt: &(impl Input + Print + Eprint + AllocGlobal)) -> Result<(), AllocError> {
    let mut input = buffer(rt.alloc(), 65537)?;
    let mut out = buffer(rt.alloc(), 262144)?;
    answer_input(rt, &mut input, &mut out);
    Ok(())
}

// Lends the buffers for files, 4 MB. The first two have one byte more than is accepted. The last is always long enough: it has
// 4*65536 + 5*1048576/2 bytes.
fn from_files(rt: &(impl Env + Files + Print + Eprint + AllocGlobal)) -> Result<(), AllocError> {
    let mut record = buffer(rt.alloc(), 65537)?;
    let mut stored = buffer(rt.alloc(), 1048577)?;
    let mut out = buffer(rt.alloc(), 2883584)?;
    convert_files(rt, &mut record, &mut stored, &mut out);
    Ok(())
}

fn main(rt: HostRuntime) -> Result<(), AllocError> {
    if !files::is_given(&rt, 1) {
        return from_input(&rt);
    }
    if files::is_given(&rt, 3) && !files::is_given(&rt, 4) {
        return from_files(&rt);
    }
    say::usage(&rt);
    Ok(())
}
