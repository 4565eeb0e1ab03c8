//! Lines under construction.

ghost use Rattle.std.specs.Prelude.{◌≡◌, ◌+◌, OnOk, length};

use crate::line::Line;
use std::alloc::{AllocError, Global};

/// The notes and warnings so far.
#[derive(Drop)]
pub(crate) struct Lines {
    pub(crate) alloc: Global,
    lines: Vec<Line>,
}

impl Lines {
    /// An empty list of notes.
    pub(crate) fn new(alloc: Global) -> Lines
        ensures { length result.lines.items ≡ 0 }
    {
        Lines {
            alloc,
            lines: Vec::new(alloc),
        }
    }

    /// Adds a line.
    fn push(&mut self, text: &str) -> Result<(), AllocError>
        ensures { OnOk result (length self.new.lines.items ≡ length self.old.lines.items + 1) }
    {
        self.lines.push(Line::new(self.alloc, text)?)?;
        Ok(())
    }

    /// Adds a note of this text.
    pub(crate) fn add(&mut self, text: &str) -> Result<(), AllocError>
        ensures { OnOk result (length self.new.lines.items ≡ length self.old.lines.items + 1) }
    {
        let text = format!(in self.alloc; "note: {text}")?;
        self.push(&text)
    }

    /// Adds a warning of this text.
    pub(crate) fn warn(&mut self, text: &str) -> Result<(), AllocError>
        ensures { OnOk result (length self.new.lines.items ≡ length self.old.lines.items + 1) }
    {
        let text = format!(in self.alloc; "warning: {text}")?;
        self.push(&text)
    }

    /// The lines, in the order in which they were added.
    pub(crate) fn into_lines(self) -> Vec<Line>
        ensures { result ≡ self.lines }
    {
        self.lines
    }
}
