//! The text of a message as it was received, and the document of a plan, as an operator's terminal can show them.

use log_text::Escaped;
use std::alloc::{AllocError, Global};
use std::fmt;

/// A segment of a message as a line shows it: each printing ASCII character and each space as it is, every other byte as `\xHH`.
#[derive(Clone, Copy)]
struct Segment<'a>(&'a [u8]);

impl fmt::Display for Segment<'_> {
    fn fmt<W: fmt::Write>(&self, f: &mut fmt::Formatter<W>) -> fmt::Result {
        let Segment(bytes) = self;
        for byte in *bytes {
            if byte.is_ascii_graphic() || *byte == b' ' {
                f.write_char(char::from(*byte))?;
            } else {
                write!(f, "\\x{byte:02X}")?;
            }
        }
        Ok(())
    }
}

/// A line of a plan's document: each control character but the tab is shown as the `\xHH` of its bytes.
#[derive(Clone, Copy)]
struct DocumentLine<'a>(&'a str);

impl fmt::Display for DocumentLine<'_> {
    fn fmt<W: fmt::Write>(&self, f: &mut fmt::Formatter<W>) -> fmt::Result {
        let DocumentLine(text) = self;
        for shown in text.chars() {
            if !shown.is_control() || shown == '\t' {
                f.write_char(shown)?;
                continue;
            }
            let mut buffer = [0; 4];
            for byte in shown.encode_utf8(&mut buffer).bytes() {
                write!(f, "\\x{byte:02X}")?;
            }
        }
        Ok(())
    }
}

/// The text of a message as it was received, or as it is sent to a destination, a segment a line, with two spaces before each, so
/// that no line is empty. Segments end with a carriage return (HL7 v2.5.1, 2.5.4). Every byte that is no printing ASCII character
/// and no space is shown as `\xHH`.
///
/// # Errors
///
/// Where memory is refused.
pub fn contents_text(alloc: Global, raw: &[u8]) -> Result<String, AllocError> {
    let mut text = String::new(alloc);
    let whole = raw.strip_suffix(b"\r".as_slice()).unwrap_or(raw);
    for segment in whole.split(|byte| *byte == b'\r') {
        writeln!(text, "  {}", Segment(segment))?;
    }
    writeln!(text, "")?;
    Ok(text)
}

/// The document of a plan, with two spaces before each of its lines, so that none is empty. A control character but the tab is
/// shown as the `\xHH` of its bytes, so a carriage return before a line feed too.
///
/// # Errors
///
/// Where memory is refused.
pub fn document_text(alloc: Global, document: &str) -> Result<String, AllocError> {
    let mut text = String::new(alloc);
    let whole = document.strip_suffix('\n').unwrap_or(document);
    for line in whole.split('\n') {
        writeln!(text, "  {}", DocumentLine(line))?;
    }
    writeln!(text, "")?;
    Ok(text)
}

/// The answer about a message at a destination to which it does not go.
///
/// # Errors
///
/// Where memory is refused.
pub fn elsewhere_text(alloc: Global, number: u32, name: &str) -> Result<String, AllocError> {
    format!(in alloc; "refused: message {number} does not go to {name}\n\n")
}

/// The answer to a message whose bytes are written to a file.
///
/// # Errors
///
/// Where memory is refused.
pub fn exported_text(alloc: Global, len: usize, path: &str) -> Result<String, AllocError> {
    let path = Escaped(path);
    format!(in alloc; "exported {len} bytes to {path}\n\n")
}
