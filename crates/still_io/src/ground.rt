// Internal: a refusal, told to the person who runs the program.
use crate::say;
use error::Refusal;

// Writes a refusal: its number to standard output, alone on a line, and its number and ground to standard error.
pub fn refused(rt: &(impl Print + Eprint + Alloc), e: Refusal) {
    let number = error::number(e);
    if let Err(failure) = println!(rt; "{number}") {
        say::failed(rt, "cannot write all of ", "standard output", failure);
    }
    let _ = eprintln!(rt; "refused ({number}): {e}");
}
