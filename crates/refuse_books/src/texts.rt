//! The message of a script, and calls on its text.

use crate::heads;
use anyhow::Result;
use call_window::{Window, done, made, no_memory};
use er7_tree::{Message, Path, Refusal, escape, unescape};
use play_script::{bytes_of, first_word, shown};
use std::alloc::{AllocError, Global};

/// The message that calls are made on.
#[derive(Drop)]
pub struct Text {
    alloc: Global,
    pub message: Message,
}

/// What a call that may be refused for more causes answers.
fn edited(alloc: Global, edit: Result<(), Refusal>) -> Result<String, AllocError> {
    match edit {
        Ok(()) => done(alloc, Ok(())),
        Err(Refusal::NoMemory) => no_memory(alloc),
        Err(refusal) => format!(in alloc; "refused {}", refusal.code()),
    }
}

/// What a path is read as.
fn path(alloc: Global, window: &Window, text: &str) -> Result<String> {
    window.begin()?;
    let path = Path::parse(text);
    window.end()?;
    match path {
        Ok(path) => Ok(format!(in alloc; "field {}", path.field())?),
        Err(refusal) => Ok(edited(alloc, Err(refusal))?),
    }
}

impl Text {
    /// A message that is a header alone.
    ///
    /// # Errors
    ///
    /// Where memory is refused.
    pub(crate) fn new(alloc: Global) -> Result<Text> {
        let message = Message::parse(alloc, b"MSH|^~\\&")?;
        Ok(Text { alloc, message })
    }

    /// The message.
    ///
    /// # Errors
    ///
    /// Where memory is refused.
    pub(crate) fn state(&self) -> Result<String, AllocError> {
        shown(self.alloc, &self.message.print()?)
    }

    /// Puts a message in the place of the one before, unless it is refused.
    fn put(&mut self, read: Result<Message, Refusal>) -> Result<String, AllocError> {
        match read {
            Ok(message) => {
                self.message = message;
                self.state()
            }
            Err(refusal) => edited(self.alloc, Err(refusal)),
        }
    }

    /// Reads a message.
    fn parse(&mut self, window: &Window, text: &str) -> Result<String> {
        let text = bytes_of(self.alloc, text)?;
        window.begin()?;
        let read = Message::parse(self.alloc, &text);
        window.end()?;
        Ok(self.put(read)?)
    }

    /// Copies the whole message.
    fn copy_all(&mut self, window: &Window) -> Result<String> {
        window.begin()?;
        let copied: Result<Message, AllocError> = self.message.clone();
        window.end()?;
        Ok(self.put(copied.map_err(Refusal::from))?)
    }

    /// Sets a piece to a value.
    fn set(&mut self, window: &Window, words: &str) -> Result<String> {
        let (path, value) = first_word(words);
        let path = Path::parse(path)?;
        let value = bytes_of(self.alloc, value)?;
        window.begin()?;
        let edit = self.message.set(&path, &value);
        window.end()?;
        Ok(edited(self.alloc, edit)?)
    }

    /// Copies a piece to another place.
    fn copy(&mut self, window: &Window, words: &str) -> Result<String> {
        let (from, to) = first_word(words);
        let (from, to) = (Path::parse(from)?, Path::parse(to)?);
        window.begin()?;
        let edit = self.message.copy(&from, &to);
        window.end()?;
        Ok(edited(self.alloc, edit)?)
    }

    /// Clears a piece.
    fn clear(&mut self, window: &Window, path: &str) -> Result<String> {
        let path = Path::parse(path)?;
        window.begin()?;
        let edit = self.message.clear(&path);
        window.end()?;
        Ok(edited(self.alloc, edit)?)
    }

    /// Removes all segments of a name.
    fn remove(&mut self, window: &Window, name: &str) -> Result<String> {
        window.begin()?;
        let edit = self.message.remove_segments(name.as_bytes());
        window.end()?;
        Ok(edited(self.alloc, edit)?)
    }

    /// The value of a piece.
    fn get(&self, window: &Window, path: &str) -> Result<String> {
        let path = Path::parse(path)?;
        window.begin()?;
        let value = self.message.get(&path);
        window.end()?;
        Ok(made(self.alloc, value)?)
    }

    /// The message as it is printed.
    fn print(&self, window: &Window) -> Result<String> {
        window.begin()?;
        let text = self.message.print();
        window.end()?;
        Ok(made(self.alloc, text)?)
    }

    /// A value with the message's delimiters escaped.
    fn escaped(&self, window: &Window, value: &str) -> Result<String> {
        let value = bytes_of(self.alloc, value)?;
        let delims = self.message.delims();
        window.begin()?;
        let text = escape(self.alloc, &delims, &value);
        window.end()?;
        Ok(made(self.alloc, text)?)
    }

    /// The value of an escaped text.
    fn unescaped(&self, window: &Window, text: &str) -> Result<String> {
        let text = bytes_of(self.alloc, text)?;
        let delims = self.message.delims();
        window.begin()?;
        let value = unescape(self.alloc, &delims, &text);
        window.end()?;
        Ok(made(self.alloc, value)?)
    }

    /// The answer to a call that leaves the message as it is.
    fn read(&self, window: &Window, name: &str, words: &str) -> Result<String> {
        match name {
            "get" => self.get(window, words),
            "print" => self.print(window),
            "escape" => self.escaped(window, words),
            "unescape" => self.unescaped(window, words),
            "path" => path(self.alloc, window, words),
            _ => heads::answer(self.alloc, window, &self.message, name),
        }
    }

    /// The answer to a call.
    ///
    /// # Errors
    ///
    /// Where the words are no such call, standard output can't be written, or memory is refused outside of the
    /// call's own requests.
    pub(crate) fn answer(&mut self, window: &Window, name: &str, words: &str) -> Result<String> {
        match name {
            "message" => self.parse(window, words),
            "clone" => self.copy_all(window),
            "set" => self.set(window, words),
            "copy" => self.copy(window, words),
            "clear" => self.clear(window, words),
            "remove" => self.remove(window, words),
            _ => self.read(window, name, words),
        }
    }
}
