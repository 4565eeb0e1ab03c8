//! The line before an answer.

use log_text::Shown;
use std::alloc::{AllocError, Global};
use std::str;

/// The line before the answer to a command: `> ` and the command, so that whoever reads an answer knows what it answers. A
/// command that is no UTF-8, or has control characters, is written with them escaped, and only its first 64 bytes are.
///
/// # Errors
///
/// Where memory is refused.
pub fn echo_text(alloc: Global, line: &[u8]) -> Result<String, AllocError> {
    let line = match line.strip_suffix(b"\r".as_slice()) {
        Some(line) => line,
        None => line,
    };
    match str::from_utf8(line) {
        Ok(text) if !text.contains(char::is_control) => format!(in alloc; "> {text}\n"),
        _ => format!(in alloc; "> {}\n", Shown(line)),
    }
}
