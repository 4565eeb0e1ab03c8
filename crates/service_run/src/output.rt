//! Writing to standard output and standard error, where no wait is without an end.

use libc::net as c;
use libc::types::pollfd;
use std::alloc::AllocError;
use std::io;
use std::io::{ErrorKind, Write};

/// The answer where memory is refused for one. It is written without memory.
const NO_MEMORY: &str = "refused: out of memory\n\n";

/// The descriptor of standard output.
const STANDARD_OUTPUT: i32 = 1;

/// The descriptor of standard error.
const STANDARD_ERROR: i32 = 2;

/// How many bytes are written at once: as many as a pipe that is ready takes without waiting.
const PIECE: usize = 4_096;

/// How many milliseconds a piece waits for its reader at most.
const READER_MILLIS: i32 = 5_000;

/// Whether a descriptor takes a piece without waiting, or fails at once, within five seconds.
fn is_writable(descriptor: i32) -> bool {
    let mut asked = [pollfd {
        fd: descriptor,
        events: c::POLLOUT,
        revents: 0,
    }];
    c::poll(&mut asked, READER_MILLIS) > 0
}

/// Writes a text to standard output.
///
/// # Errors
///
/// Where nobody reads it for five seconds, or writing fails. The rest is not written then.
pub(crate) fn write_text(rt: &HostRuntime, text: &str) -> io::Result<()> {
    let mut output = rt.stdout();
    for piece in text.as_bytes().chunks(PIECE) {
        if !is_writable(STANDARD_OUTPUT) {
            return Err(io::Error::from(ErrorKind::TimedOut));
        }
        output.write_all(piece)?;
    }
    output.flush()
}

/// Writes an answer to standard output. What can't be written is dropped: whoever sends commands and doesn't read the answers
/// holds up nothing.
pub(crate) fn say(rt: &HostRuntime, text: &str) {
    let _ = write_text(rt, text);
}

/// Writes an answer to standard output, or that memory was refused for it.
pub(crate) fn answer(rt: &HostRuntime, text: Result<String, AllocError>) {
    match text {
        Ok(text) => say(rt, &text),
        Err(AllocError) => say(rt, NO_MEMORY),
    }
}

/// Writes a line to standard error. Whether it was written: it is not where nobody reads for five seconds, or writing fails.
pub(crate) fn tell(rt: &HostRuntime, line: &str) -> bool {
    is_writable(STANDARD_ERROR) && eprintln!(rt; "{line}").is_ok()
}

/// Writes the lines of a text to standard error, as long as they are read.
pub(crate) fn tell_text(rt: &HostRuntime, text: &str) {
    for line in text.lines() {
        if !tell(rt, line) {
            return;
        }
    }
}
