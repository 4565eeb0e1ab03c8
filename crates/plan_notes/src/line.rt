//! A line of text.

ghost use Rattle.std.specs.Prelude.{◌≡◌, true, string_bytes, IfOk};
ghost use Rattle.std.specs.List.{list_all};
ghost use Rattle.plan_notes.specs.inner.Line.{is_printing};

use std::alloc::{AllocError, Global};
use std::fmt;

/// A line for standard error: printing ASCII characters and spaces alone, so that it is one line wherever it is shown.
#[derive(Drop)]
pub struct Line {
    text: String,
    ghost printing: { list_all is_printing (string_bytes text) ≡ true },
}

/// Whether a byte is a printing ASCII character or a space.
fn is_printing(byte: u8) -> bool
    ensures { result ≡ is_printing byte }
{
    32 <= byte && byte <= 126
}

/// The character that shows a byte: itself where it is printing, else a question mark.
fn shown(byte: u8) -> char
    ensures printing { is_printing result ≡ true }
    ensures same { is_printing byte ≡ true → result ≡ byte }
{
    if is_printing(byte) {
        char::from(byte)
    } else {
        '?'
    }
}

/// Adds a character to a text.
fn push_printing(text: &mut String, added: char) -> Result<(), AllocError>
    requires { is_printing added ≡ true }
    ensures { list_all is_printing (string_bytes text.old) ≡ true → list_all is_printing (string_bytes text.new) ≡ true }
{
    text.push(added)
}

/// The bytes of a text, each shown.
fn shown_text(alloc: Global, text: &str) -> Result<String, AllocError>
    ensures { IfOk result (λ s. list_all is_printing (string_bytes s) ≡ true) }
{
    let mut made = String::new(alloc);
    for byte in text.as_bytes() {
        push_printing(&mut made, shown(*byte))?;
    }
    Ok(made)
}

impl Line {
    /// The line of a text. A byte of it that is no printing ASCII character is shown as a question mark.
    pub(crate) fn new(alloc: Global, text: &str) -> Result<Line, AllocError> {
        Ok(Line {
            text: shown_text(alloc, text)?,
        })
    }

    /// The text of the line.
    pub fn as_str(&self) -> &str
        ensures { list_all is_printing result.now ≡ true }
    {
        self.text.as_str()
    }
}

impl fmt::Display for Line {
    fn fmt<W: fmt::Write>(&self, f: &mut fmt::Formatter<W>) -> fmt::Result {
        f.write_str(self.as_str())
    }
}
