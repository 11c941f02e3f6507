// Internal: messages to the person who runs the program, on standard error. A message that cannot be written is lost.
use std::io;

// Writes text.
pub fn text(rt: &impl Eprint, words: &str) {
    let _ = rt.eprint(words);
}

// Writes a number.
pub fn number(rt: &impl Eprint, n: usize) {
    let _ = rt.eprint(n);
}

// Writes a colon, the system's reason and a line end. The number of the error, which std puts after the system's words, is left out.
fn reason(rt: &(impl Eprint + Alloc), error: io::Error) -> io::Result<()> {
    let said = format!(in rt.alloc(); "{error}")?;
    match said.as_str().split_once(" (os error ") {
        Some((words, _)) => eprintln!(rt; ": {words}"),
        None => eprintln!(rt; ": {error}"),
    }
}

// Reports what failed, with the name of the file and the system's reason.
pub fn failed(rt: &(impl Eprint + Alloc), what: &str, name: &str, error: io::Error) {
    text(rt, "still_main: ");
    text(rt, what);
    text(rt, name);
    let _ = reason(rt, error);
}

// Reports an argument that cannot be a file's name, and why.
pub fn bad_argument(rt: &impl Eprint, i: usize, why: &str) {
    text(rt, "still_main: argument ");
    number(rt, i);
    text(rt, ": ");
    text(rt, why);
    text(rt, "\n");
}

// Reports a file of more than `most` bytes.
pub fn too_long(rt: &impl Eprint, name: &str, most: usize) {
    text(rt, "still_main: ");
    text(rt, name);
    text(rt, ": too long, this program takes at most ");
    number(rt, most);
    text(rt, " bytes\n");
}

// Reports a wrong number of arguments.
pub fn usage(rt: &impl Eprint) {
    text(
        rt,
        "usage: still_main RECORD STORED OUT\n\
         \x20      still_main < INPUT > OUT\n\
         RECORD: the compact record, at most 65536 bytes\n\
         STORED: the stored bytes, at most 1048576 bytes\n\
         INPUT:  the record's length in two bytes, the record, the stored bytes; at most 65536 bytes\n\
         OUT:    the Annex B stream\n",
    );
}
