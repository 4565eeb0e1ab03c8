//! The framer and the keys of a script, and calls on them.

use anyhow::Result;
use call_window::{Window, done, no_memory};
use dup_index::{Keys, KnownKey};
use mllp_frame::{FrameEvent, FrameFault, Framer};
use play_script::{bytes_of, shown};
use std::alloc::{AllocError, Global};
use std::fmt::Write;
use std::hash::RandomState;

/// The stores that calls are made on.
#[derive(Drop)]
pub struct Stores {
    alloc: Global,
    framer: Framer,
    keys: Keys,
    added: u32,
}

/// An event of a stream.
fn push_event(told: &mut String, event: &FrameEvent) -> Result<(), AllocError> {
    match event {
        FrameEvent::Block(data) => {
            let data = shown(*told.allocator(), data)?;
            write!(told, " block {data}")
        }
        FrameEvent::Broken(broken) => write!(told, " broken {broken:?}"),
    }
}

/// Why a piece of a stream was refused.
fn fed(alloc: Global, fault: FrameFault) -> Result<String, AllocError> {
    match fault {
        FrameFault::NoMemory => no_memory(alloc),
        FrameFault::Failed => String::from_str(alloc, "failed"),
    }
}

impl Stores {
    /// Empty stores.
    ///
    /// # Errors
    ///
    /// Where memory is refused.
    pub(crate) fn new(rt: &HostRuntime) -> Result<Stores> {
        let alloc = rt.alloc();
        Ok(Stores {
            alloc,
            framer: Framer::new(alloc),
            keys: Keys::new(alloc, RandomState::new(rt)?),
            added: 0,
        })
    }

    /// What the stores hold.
    ///
    /// # Errors
    ///
    /// Where memory is refused.
    pub(crate) fn state(&self) -> Result<String, AllocError> {
        format!(in self.alloc; "{} keys", self.added)
    }

    /// Feeds a piece of a stream.
    fn feed(&mut self, window: &Window, bytes: &str) -> Result<String> {
        let piece = bytes_of(self.alloc, bytes)?;
        window.begin()?;
        let outcome = self.framer.feed(&piece);
        window.end()?;
        match outcome {
            Ok(()) => Ok(done(self.alloc, Ok(()))?),
            Err(fault) => Ok(fed(self.alloc, fault)?),
        }
    }

    /// The events to come, which are taken.
    fn events(&mut self) -> Result<String, AllocError> {
        let mut told = String::from_str(self.alloc, "events:")?;
        for _ in 0..u64::MAX {
            let Some(event) = self.framer.next() else {
                break;
            };
            push_event(&mut told, &event)?;
        }
        Ok(told)
    }

    /// Makes room for a number of further keys.
    fn reserve_keys(&mut self, window: &Window, count: &str) -> Result<String> {
        let count = count.parse()?;
        window.begin()?;
        let made = self.keys.reserve(count);
        window.end()?;
        Ok(done(self.alloc, made)?)
    }

    /// Adds a key with the next index, unless it is known. Its index is printed.
    fn add_key(&mut self, text: &str) -> Result<String> {
        self.keys.reserve(1)?;
        if self.keys.find(text.as_bytes()).is_none() {
            let key = KnownKey::new(self.alloc, text.as_bytes(), self.added)?;
            self.keys.add(key);
            self.added = self.added.saturating_add(1);
        }
        Ok(self.place(text)?)
    }

    /// The place of a key.
    fn place(&self, text: &str) -> Result<String, AllocError> {
        let place = self.keys.find(text.as_bytes());
        format!(in self.alloc; "{place:?}")
    }

    /// The answer to a call, if it is one on a store.
    ///
    /// # Errors
    ///
    /// Where the words are no such call, standard output can't be written, or memory is refused outside of the
    /// call's own requests.
    pub(crate) fn answer(
        &mut self,
        window: &Window,
        name: &str,
        words: &str,
    ) -> Result<Option<String>> {
        Ok(match name {
            "feed" => Some(self.feed(window, words)?),
            "events" => Some(self.events()?),
            "keys" => Some(self.reserve_keys(window, words)?),
            "key" => Some(self.add_key(words)?),
            "place" => Some(self.place(words)?),
            _ => None,
        })
    }
}
