//! How bytes of messages and of devices are written into a line of the log, so that no line can be forged or broken.
#![tactic(auto)]

use std::fmt;

/// The most bytes of a control id that are shown.
const SHOWN_MAX: usize = 64;

/// The most bytes that the log shows of what should be a control id and can't be one.
const BEGINNING_MAX: usize = 8;

/// Whether a byte is shown as it is: a printing ASCII character other than a space, a quotation mark and the backslash.
fn is_plain(byte: u8) -> bool {
    byte.is_ascii_graphic() && byte != b'\\' && byte != b'"'
}

/// Writes a byte: as it is where it is plain, else as `\xHH`.
fn write_byte<W: fmt::Write>(f: &mut fmt::Formatter<W>, byte: u8) -> fmt::Result {
    if is_plain(byte) {
        f.write_char(char::from(byte))
    } else {
        write!(f, "\\x{byte:02X}")
    }
}

/// Bytes of a message as an answer to an operator shows them: the first 64, each byte that is no printing ASCII character, a
/// space, a quotation mark or a backslash as `\xHH`, and `..` behind them where there are more.
#[derive(Clone, Copy)]
pub struct Shown<'a>(pub &'a [u8]);

impl fmt::Display for Shown<'_> {
    fn fmt<W: fmt::Write>(&self, f: &mut fmt::Formatter<W>) -> fmt::Result {
        let Shown(bytes) = self;
        for byte in bytes.iter().take(SHOWN_MAX) {
            write_byte(f, *byte)?;
        }
        if bytes.len() > SHOWN_MAX {
            f.write_str("..")?;
        }
        Ok(())
    }
}

/// Whether a byte may be one of a control id: a printing ASCII character that is no space, no quotation mark and none of the
/// separators that HL7 recommends (HL7 v2.5.1, 2.5.4).
fn is_of_id(byte: u8) -> bool {
    is_plain(byte) && !matches!(byte, b'|' | b'^' | b'~' | b'&')
}

/// A message control id, MSH-10 (HL7 v2.5.1, 2.15.9.10), as the log shows it: its first 64 bytes, and `..` behind them where it
/// has more. A value with a byte that no control id has may be something else, as a patient's name where a header lost its
/// carriage return. Of that only the bytes before the first such byte are shown, at most eight, and its length: `ADT..(31)`.
#[derive(Clone, Copy)]
pub struct ControlId<'a>(pub &'a [u8]);

impl fmt::Display for ControlId<'_> {
    fn fmt<W: fmt::Write>(&self, f: &mut fmt::Formatter<W>) -> fmt::Result {
        let ControlId(bytes) = self;
        let allowed = bytes.iter().take_while(|byte| is_of_id(**byte)).count();
        if allowed == bytes.len() {
            return write!(f, "{}", Shown(bytes));
        }
        for byte in bytes.iter().take(allowed.min(BEGINNING_MAX)) {
            write_byte(f, *byte)?;
        }
        write!(f, "..({})", bytes.len())
    }
}

/// A text from outside, as a name, an address or a path, as a line shows it: each byte that is a control byte or no ASCII as
/// `\xHH`.
#[derive(Clone, Copy)]
pub struct Escaped<'a>(pub &'a str);

impl fmt::Display for Escaped<'_> {
    fn fmt<W: fmt::Write>(&self, f: &mut fmt::Formatter<W>) -> fmt::Result {
        let Escaped(text) = self;
        for byte in text.as_bytes() {
            if *byte == b' ' {
                f.write_char(' ')?;
            } else {
                write_byte(f, *byte)?;
            }
        }
        Ok(())
    }
}
