//! Texts of a plan, and the paths of its faults, as a line shows them.

use crate::spot::{STEPS_MAX, step_into};
use crate::tables::TableKind;
use log_text::Escaped;
use plan_text::PlanFault;
use std::fmt;

/// The most characters of a text that a note shows.
const SHOWN_MAX: usize = 64;

/// A text of a plan between quotation marks: its first 64 characters, each byte that is no printing ASCII character as
/// `\xHH`, and `..` behind the last where it has more.
#[derive(Clone, Copy)]
pub(crate) struct Quoted<'a>(pub(crate) &'a str);

/// Writes a character, escaped.
fn write_escaped<W: fmt::Write>(f: &mut fmt::Formatter<W>, shown: char) -> fmt::Result {
    let mut buffer = [0u8; 4];
    write!(f, "{}", Escaped(shown.encode_utf8(&mut buffer)))
}

impl fmt::Display for Quoted<'_> {
    fn fmt<W: fmt::Write>(&self, f: &mut fmt::Formatter<W>) -> fmt::Result {
        let Quoted(text) = self;
        f.write_char('"')?;
        for shown in text.chars().take(SHOWN_MAX) {
            write_escaped(f, shown)?;
        }
        if text.chars().nth(SHOWN_MAX).is_some() {
            f.write_str("..")?;
        }
        f.write_char('"')
    }
}

/// A fault of a plan as its line shows it: its name, and its path, if it has one. It is one line: a key that holds a
/// control character or a dot is written in the path as a quoted key of TOML, with control characters as `\xHH`. All
/// other paths are shown as they are.
#[derive(Clone, Copy)]
pub struct ShownFault<'a>(pub &'a PlanFault);

/// Whether a key has to be quoted in a path.
fn wants_quotes(key: &str) -> bool {
    key.chars().any(|shown| shown == '.' || shown.is_control())
}

/// Writes a character of a quoted key.
fn write_quoted<W: fmt::Write>(f: &mut fmt::Formatter<W>, shown: char) -> fmt::Result {
    if shown.is_control() {
        let code = u32::from(shown);
        return write!(f, "\\x{code:02X}");
    }
    if shown == '"' || shown == '\\' {
        f.write_char('\\')?;
    }
    f.write_char(shown)
}

/// Writes the last key of a path.
fn write_key<W: fmt::Write>(f: &mut fmt::Formatter<W>, key: &str) -> fmt::Result {
    if !wants_quotes(key) {
        return f.write_str(key);
    }
    f.write_char('"')?;
    for shown in key.chars() {
        write_quoted(f, shown)?;
    }
    f.write_char('"')
}

/// Writes a path: the tables that lead to its last key, and that key.
fn write_path<W: fmt::Write>(f: &mut fmt::Formatter<W>, path: &str) -> fmt::Result {
    let (mut kind, mut rest) = (TableKind::Document, path);
    for _ in 0..STEPS_MAX {
        let Some(step) = step_into(kind, rest) else {
            break;
        };
        f.write_str(step.segment)?;
        f.write_char('.')?;
        (kind, rest) = (step.kind, step.rest);
    }
    write_key(f, rest)
}

impl fmt::Display for ShownFault<'_> {
    fn fmt<W: fmt::Write>(&self, f: &mut fmt::Formatter<W>) -> fmt::Result {
        let ShownFault(fault) = self;
        f.write_str(fault.name.text())?;
        if fault.path.as_str().is_empty() {
            return Ok(());
        }
        f.write_str(" at ")?;
        write_path(f, fault.path.as_str())
    }
}
