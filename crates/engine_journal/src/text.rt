//! Texts of bounded length.

use std::{fmt, str};

/// The most bytes of a line, its line break aside. A line of that length reaches the system in one write.
const LINE_MAX: usize = 1_000;

/// The most bytes of a part of a line that is kept.
const PART_MAX: usize = 200;

/// Whether a byte of ASCII is shown as it is: it is no control byte.
fn is_shown(byte: u8) -> bool {
    byte.is_ascii_graphic() || byte == b' '
}

/// The digit of a number below 16, in hexadecimal.
fn digit(number: u8) -> u8 {
    if number < 10 {
        b'0'.saturating_add(number)
    } else {
        b'A'.saturating_add(number.saturating_sub(10))
    }
}

/// A line while it is written. Control bytes and bytes beyond ASCII become `\xHH`, so that nothing in it can end the line or
/// look like another; what has no room is left out.
#[derive(Clone, Copy)]
pub struct Line {
    bytes: [u8; LINE_MAX],
    len: usize,
}

impl Line {
    /// An empty line.
    pub fn new() -> Self {
        Line {
            bytes: [0; LINE_MAX],
            len: 0,
        }
    }

    fn push(&mut self, byte: u8) {
        if let Some(room) = self.bytes.get_mut(self.len) {
            *room = byte;
            self.len = self.len.saturating_add(1);
        }
    }

    fn push_escaped(&mut self, byte: u8) {
        if is_shown(byte) {
            self.push(byte);
        } else {
            self.push(b'\\');
            self.push(b'x');
            self.push(digit(byte >> 4));
            self.push(digit(byte & 15));
        }
    }

    /// The line so far.
    pub fn as_str(&self) -> &str {
        let len = self.len.min(LINE_MAX);
        str::from_utf8(&self.bytes[..len]).unwrap_or("")
    }
}

impl fmt::Write for Line {
    fn write_str(&mut self, text: &str) -> fmt::Result {
        for byte in text.as_bytes() {
            self.push_escaped(*byte);
        }
        Ok(())
    }
}

impl fmt::Display for Line {
    fn fmt<W: fmt::Write>(&self, f: &mut fmt::Formatter<W>) -> fmt::Result {
        f.write_str(self.as_str())
    }
}

/// A part of a line that is kept: at most 200 bytes of it.
#[derive(Clone, Copy)]
pub struct Part {
    bytes: [u8; PART_MAX],
    len: usize,
}

impl Part {
    /// The first bytes of a text.
    pub fn of(text: &str) -> Self {
        let mut part = Part {
            bytes: [0; PART_MAX],
            len: 0,
        };
        for (room, byte) in part.bytes.iter_mut().zip(text.as_bytes()) {
            *room = *byte;
        }
        part.len = text.len().min(PART_MAX);
        part
    }

    /// The bytes that are kept, as far as they are whole characters.
    pub fn as_str(&self) -> &str {
        let len = self.len.min(PART_MAX);
        str::from_utf8(&self.bytes[..len]).unwrap_or("")
    }
}

impl fmt::Display for Part {
    fn fmt<W: fmt::Write>(&self, f: &mut fmt::Formatter<W>) -> fmt::Result {
        f.write_str(self.as_str())
    }
}
