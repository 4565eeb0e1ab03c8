//! Lines and columns of a text.

ghost use Rattle.std.specs.Prelude.{◌≡◌, ◌+◌, count_by, take};
ghost use Rattle.plan_notes.specs.inner.Position.{is_line_end};

/// A position in a text: its line and its column, both from 1. A column counts characters.
#[derive(Clone, Copy, Debug, PartialEq, Eq)]
pub(crate) struct Position {
    pub(crate) line: usize,
    pub(crate) column: usize,
}

/// Whether a byte ends a line.
fn is_line_end(byte: u8) -> bool
    ensures { result ≡ is_line_end byte }
{
    byte == b'\n'
}

/// How many lines end in a text.
fn line_ends(text: &[u8]) -> usize
    ensures { result ≡ count_by is_line_end text.now }
{
    text.iter().filter(|byte| is_line_end(**byte)).count()
}

/// How many characters begin in the last line of a text.
fn characters_of_last_line(text: &[u8]) -> usize {
    text.iter()
        .rev()
        .take_while(|byte| !is_line_end(**byte))
        .filter(|byte| **byte & 0xC0 != 0x80)
        .count()
}

impl Position {
    /// The position behind these bytes, which begin the text.
    pub(crate) fn behind(before: &[u8]) -> Position
        ensures line { result.line ≡ count_by is_line_end before.now + 1 }
    {
        Position {
            line: line_ends(before) + 1,
            column: characters_of_last_line(before).saturating_add(1),
        }
    }
}
