// Why a call of the system failed, in C's words.
use arrayvec::ArrayString;
use std::fmt::Write;
use std::io;

// C's longest text has 49 bytes, and std puts the number of the error after it, as " (os error 5)".
const TEXT_BYTES: usize = 80;

// C's text alone.
fn words(said: &str) -> &str {
    match said.split_once(" (os error ") {
        Some((text, _number)) => text,
        None => said,
    }
}

// Writes a line to standard error: what failed, a colon and why.
pub(crate) fn fail(rt: &impl Eprint, what: &str, error: io::Error) {
    let mut said = ArrayString::<TEXT_BYTES>::new();
    let _ = write!(said, "{error}");
    let _ = eprintln!(rt; "{what}: {}", words(said.as_str()));
}
