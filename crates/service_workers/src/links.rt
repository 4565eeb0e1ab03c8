//! What is known of the connections to the destinations.

use delivery_worker::Cause;
use fixed_numbers::DESTINATIONS;
use plan_text::Plan;
use std::alloc::{AllocError, Global};
use std::array;
use std::sync::{Mutex, Wait};

/// Whether a destination is connected, as far as is known. Moments are in seconds since 1970.
#[derive(Clone, Copy, Debug, PartialEq, Eq)]
pub enum LinkState {
    /// No connection was tried yet.
    Untried,
    /// A connection was opened at this moment, and hasn't failed since.
    Connected(u64),
    /// There is no connection. Where one could not be opened, no other is tried before this moment.
    Unconnected(Option<u64>),
}

/// Why a connection failed last.
#[derive(Drop)]
pub struct LinkTrouble {
    /// When it failed, in seconds since 1970.
    pub second: u64,
    /// Why, in words.
    pub words: String,
}

/// What is known of the connection to a destination.
#[derive(Drop)]
pub struct LinkNote {
    /// Whether it is connected.
    pub state: LinkState,
    /// Why the connection failed last, if it ever did.
    pub trouble: Option<LinkTrouble>,
    /// Whether it failed in the attempt at hand.
    is_fresh: bool,
}

impl LinkNote {
    /// Of a connection that was never tried.
    fn new() -> LinkNote {
        LinkNote {
            state: LinkState::Untried,
            trouble: None,
            is_fresh: false,
        }
    }

    /// The same once more.
    fn copy(&self, alloc: Global) -> Result<LinkNote, AllocError> {
        let trouble = match &self.trouble {
            Some(LinkTrouble { second, words }) => Some(LinkTrouble {
                second: *second,
                words: String::from_str(alloc, words)?,
            }),
            None => None,
        };
        Ok(LinkNote {
            state: self.state,
            trouble,
            is_fresh: self.is_fresh,
        })
    }
}

/// Whether two plans have another destination at an index, by name or address.
pub(crate) fn is_other(before: &Plan, now: &Plan, destination: u32) -> bool {
    match (
        before.destination(destination),
        now.destination(destination),
    ) {
        (Some(old), Some(new)) => old.name() != new.name() || old.address() != new.address(),
        (None, None) => false,
        _ => true,
    }
}

/// What is known of the connection to each destination, by index.
#[derive(Drop)]
pub(crate) struct Links {
    notes: [Mutex<LinkNote>; DESTINATIONS as usize],
}

impl Links {
    /// No connection was tried yet.
    pub(crate) fn new() -> Links {
        Links {
            notes: array::from_fn(|_| Mutex::new(LinkNote::new())),
        }
    }

    /// Notes that a connection to the destination at this index was opened at this moment.
    pub(crate) fn note_connected<H: Wait>(&self, rt: &H, destination: u32, second: u64) {
        if let Some(note) = self.notes.get(destination as usize) {
            note.lock(rt).state = LinkState::Connected(second);
        }
    }

    /// Notes that the connection to the destination at this index failed at this moment, or could not be opened, and for how many
    /// seconds no other is tried. Where memory is refused for the words, the former ones stay.
    pub(crate) fn note_fault<H: Wait>(
        &self,
        rt: &H,
        alloc: Global,
        destination: u32,
        second: u64,
        cause: &Cause,
        wait: Option<u32>,
    ) {
        let Some(note) = self.notes.get(destination as usize) else {
            return;
        };
        let words = format!(in alloc; "{cause}");
        let next = wait.map(|seconds| second.saturating_add(u64::from(seconds)));
        let mut note = note.lock(rt);
        note.state = LinkState::Unconnected(next);
        if let Ok(words) = words {
            note.trouble = Some(LinkTrouble { second, words });
            note.is_fresh = true;
        }
    }

    /// Notes that an attempt at the destination at this index begins, in which the connection hasn't failed yet.
    pub(crate) fn forget_fault<H: Wait>(&self, rt: &H, destination: u32) {
        if let Some(note) = self.notes.get(destination as usize) {
            note.lock(rt).is_fresh = false;
        }
    }

    /// Why the connection to the destination at this index failed in the attempt at hand, in words, if it did.
    ///
    /// # Errors
    ///
    /// Where memory is refused.
    pub(crate) fn fresh_fault<H: Wait>(
        &self,
        rt: &H,
        alloc: Global,
        destination: u32,
    ) -> Result<Option<String>, AllocError> {
        let Some(note) = self.notes.get(destination as usize) else {
            return Ok(None);
        };
        let note = note.lock(rt);
        match &note.trouble {
            Some(LinkTrouble { words, .. }) if note.is_fresh => {
                Ok(Some(String::from_str(alloc, words)?))
            }
            _ => Ok(None),
        }
    }

    /// Forgets what was known of the connection to the destination at this index.
    pub(crate) fn forget<H: Wait>(&self, rt: &H, destination: u32) {
        if let Some(note) = self.notes.get(destination as usize) {
            *note.lock(rt) = LinkNote::new();
        }
    }

    /// Whether the destination at this index is connected, as far as is known.
    pub(crate) fn state<H: Wait>(&self, rt: &H, destination: u32) -> LinkState {
        match self.notes.get(destination as usize) {
            Some(note) => note.lock(rt).state,
            None => LinkState::Untried,
        }
    }

    /// What is known of the connection to the destination at this index.
    ///
    /// # Errors
    ///
    /// Where memory is refused.
    pub(crate) fn at<H: Wait>(
        &self,
        rt: &H,
        alloc: Global,
        destination: u32,
    ) -> Result<LinkNote, AllocError> {
        match self.notes.get(destination as usize) {
            Some(note) => note.lock(rt).copy(alloc),
            None => Ok(LinkNote::new()),
        }
    }
}
