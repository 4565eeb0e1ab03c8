//! The message of a script, and the answers to calls on its text.

use crate::messages::acks;
use anyhow::{Result, bail};
use er7_tree::{Message, Path, Refusal, escape, is_vacant, unescape};
use play_script::{bytes_of, first_word, shown};
use std::alloc::{AllocError, Global};

/// The message that calls speak of.
#[derive(Drop)]
pub struct Text {
    alloc: Global,
    pub message: Message,
}

/// A refusal: its number and its name.
fn refused(alloc: Global, refusal: &Refusal) -> Result<String, AllocError> {
    format!(in alloc; "refused {} {refusal:?}", refusal.code())
}

/// What an edit answers.
fn edited(alloc: Global, edit: &Result<(), Refusal>) -> Result<String> {
    Ok(match edit {
        Ok(()) => String::from_str(alloc, "ok")?,
        Err(refusal) => refused(alloc, refusal)?,
    })
}

/// Whether a text is vacant.
fn vacant(alloc: Global, text: &str) -> Result<String> {
    let vacant = is_vacant(&bytes_of(alloc, text)?);
    Ok(format!(in alloc; "{vacant}")?)
}

/// The answer of bytes that a call makes.
fn made(alloc: Global, bytes: Result<Vec<u8>, AllocError>) -> Result<String> {
    Ok(shown(alloc, &bytes?)?)
}

/// What a path is.
fn told(alloc: Global, path: &Path) -> Result<String> {
    let segment = shown(alloc, path.segment())?;
    let fixed = if path.is_fixed() { " fixed" } else { "" };
    Ok(format!(in alloc;
        "{segment} {} field {} {:?}{fixed}",
        path.occurrence(),
        path.field(),
        path.part()
    )?)
}

/// What a text names as a path.
fn named(alloc: Global, path: &str) -> Result<String> {
    match Path::parse(if path == "<>" { "" } else { path }) {
        Ok(path) => told(alloc, &path),
        Err(refusal) => Ok(refused(alloc, &refusal)?),
    }
}

/// Whether two paths name one piece, and whether they are of one level.
fn compared(alloc: Global, paths: &str) -> Result<String> {
    let (path, other) = first_word(paths);
    let (path, other) = (Path::parse(path)?, Path::parse(other)?);
    let same = path == other;
    let level = path.is_level_with(&other);
    Ok(format!(in alloc; "same {same}, level {level}")?)
}

/// Appends a text this many times.
fn push_repeated(text: &mut Vec<u8>, count: u32, word: &str) -> Result<(), AllocError> {
    let bytes = bytes_of(*text.allocator(), word)?;
    for _ in 0..count {
        text.extend_from_slice(&bytes)?;
    }
    Ok(())
}

/// A first text, another one this many times, and a last one.
fn repeated(alloc: Global, words: &str) -> Result<Vec<u8>> {
    let (count, words) = first_word(words);
    let (first, words) = first_word(words);
    let (other, last) = first_word(words);
    let mut text = bytes_of(alloc, first)?;
    push_repeated(&mut text, count.parse()?, other)?;
    push_repeated(&mut text, 1, last)?;
    Ok(text)
}

/// Reads a message. The answer is how many bytes it prints as.
fn parse_many(alloc: Global, text: &[u8]) -> Result<String> {
    let printed = match Message::parse(alloc, text) {
        Ok(message) => message.print()?,
        Err(refusal) => return Ok(refused(alloc, &refusal)?),
    };
    Ok(format!(in alloc; "{} of {} bytes", printed.len(), text.len())?)
}

impl Text {
    /// A message that is a header alone.
    ///
    /// # Errors
    ///
    /// Where memory is refused.
    pub(crate) fn new(alloc: Global) -> Result<Text> {
        let message = Message::parse(alloc, b"MSH|^~\\&")?;
        Ok(Text { alloc, message })
    }

    /// Reads a message. Where it is refused, the one before stays.
    fn parse(&mut self, text: &str) -> Result<String> {
        match Message::parse(self.alloc, &bytes_of(self.alloc, text)?) {
            Ok(message) => {
                self.message = message;
                edited(self.alloc, &Ok(()))
            }
            Err(refusal) => Ok(refused(self.alloc, &refusal)?),
        }
    }

    /// Puts a copy of the message in its place, and tells whether it prints the same.
    fn copy_all(&mut self) -> Result<String> {
        let copied = self.message.clone()?;
        let same = copied.print()? == self.message.print()?;
        self.message = copied;
        Ok(format!(in self.alloc; "same {same}")?)
    }

    /// Sets a piece to a value.
    fn set(&mut self, words: &str) -> Result<String> {
        let (path, value) = first_word(words);
        let value = bytes_of(self.alloc, value)?;
        edited(self.alloc, &self.message.set(&Path::parse(path)?, &value))
    }

    /// Copies a piece to another place.
    fn copy(&mut self, words: &str) -> Result<String> {
        let (from, to) = first_word(words);
        let (from, to) = (Path::parse(from)?, Path::parse(to)?);
        edited(self.alloc, &self.message.copy(&from, &to))
    }

    /// Clears a piece.
    fn clear(&mut self, path: &str) -> Result<String> {
        edited(self.alloc, &self.message.clear(&Path::parse(path)?))
    }

    /// Removes all segments of a name.
    fn remove(&mut self, name: &str) -> Result<String> {
        edited(self.alloc, &self.message.remove_segments(name.as_bytes()))
    }

    /// A raw field of the header, or a component of it.
    fn msh(&self, words: &str) -> Result<String> {
        let (field, component) = first_word(words);
        let component = match component {
            "" => None,
            number => Some(number.parse()?),
        };
        Ok(shown(self.alloc, self.message.msh(field.parse()?, component))?)
    }

    /// The first segment of a name.
    fn segment(&self, name: &str) -> Result<String> {
        let [a, b, c] = name.as_bytes() else {
            bail!("{name} is no name");
        };
        Ok(match self.message.segment(&[*a, *b, *c]) {
            Some(segment) => shown(self.alloc, segment)?,
            None => String::from_str(self.alloc, "none")?,
        })
    }

    /// The value of a piece.
    fn value(&self, path: &str) -> Result<String> {
        made(self.alloc, self.message.get(&Path::parse(path)?))
    }

    /// A piece as it is written.
    fn raw(&self, path: &str) -> Result<String> {
        Ok(shown(self.alloc, self.message.get_raw(&Path::parse(path)?))?)
    }

    /// A value with the message's delimiters escaped.
    fn escaped(&self, value: &str) -> Result<String> {
        let value = bytes_of(self.alloc, value)?;
        made(
            self.alloc,
            escape(self.alloc, &self.message.delims(), &value),
        )
    }

    /// The value of an escaped text.
    fn unescaped(&self, text: &str) -> Result<String> {
        let text = bytes_of(self.alloc, text)?;
        made(
            self.alloc,
            unescape(self.alloc, &self.message.delims(), &text),
        )
    }

    /// The message as it is printed.
    fn print(&self) -> Result<String> {
        made(self.alloc, self.message.print())
    }

    /// The header as it is written.
    fn header(&self) -> Result<String> {
        Ok(shown(self.alloc, self.message.header())?)
    }

    /// The answer to a call that leaves the message as it is.
    fn read(&self, call: &str, words: &str) -> Result<String> {
        match call {
            "print" => self.print(),
            "header" => self.header(),
            "msh" => self.msh(words),
            "segment" => self.segment(words),
            "raw" => self.raw(words),
            "get" => self.value(words),
            "escape" => self.escaped(words),
            "unescape" => self.unescaped(words),
            "vacant" => vacant(self.alloc, words),
            "path" => named(self.alloc, words),
            "paths" => compared(self.alloc, words),
            "many" => parse_many(self.alloc, &repeated(self.alloc, words)?),
            _ => acks::answer(self.alloc, &self.message, call, words),
        }
    }

    /// The answer to a call.
    ///
    /// # Errors
    ///
    /// Where there is no such call, its words can't be read, or memory is refused.
    pub(crate) fn answer(&mut self, call: &str, words: &str) -> Result<String> {
        match call {
            "parse" => self.parse(words),
            "clone" => self.copy_all(),
            "set" => self.set(words),
            "copy" => self.copy(words),
            "clear" => self.clear(words),
            "remove" => self.remove(words),
            _ => self.read(call, words),
        }
    }
}
