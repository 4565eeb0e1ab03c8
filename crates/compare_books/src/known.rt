//! The keys by which messages are known again, and which of them are forgotten.

use crate::dice::Dice;
use anyhow::{Result, bail};
use event_log::Told;
use std::alloc::{AllocError, Global};

/// The key of a message that was accepted or filtered.
#[derive(Clone, Copy)]
pub struct Key {
    pub channel: u32,
    /// The control id of the message.
    pub id: u32,
    /// The place of its arrival.
    pub place: usize,
    /// Its answer.
    pub told: Told,
}

/// The keys that are known, those that are forgotten, and the first of the twelve control ids that messages have now.
#[derive(Drop)]
pub struct Keys {
    alloc: Global,
    known: Vec<Key>,
    forgotten: Vec<Key>,
    first_id: u32,
}

impl Keys {
    /// None yet.
    pub(crate) fn new(alloc: Global) -> Keys {
        Keys {
            alloc,
            known: Vec::new(alloc),
            forgotten: Vec::new(alloc),
            first_id: 0,
        }
    }

    /// Keeps the key of a message that was accepted or filtered; other keys aren't known later.
    ///
    /// # Errors
    ///
    /// Where memory is refused.
    pub(crate) fn note(&mut self, key: Key) -> Result<(), AllocError> {
        if let Told::Accepted(_) | Told::Filtered = key.told {
            self.known.push(key)?;
        }
        Ok(())
    }

    /// A control id for a message on a channel: one of twelve, so that some come again, or the next one that wasn't forgotten
    /// there.
    ///
    /// # Errors
    ///
    /// Where there is no further control id.
    pub(crate) fn pick(&self, dice: &mut Dice, channel: u32) -> Result<u32> {
        let id = self.first_id.saturating_add(dice.roll(12));
        self.unforgotten(channel, id)
    }

    /// Whether the key of a control id on a channel was forgotten.
    fn is_forgotten(&self, channel: u32, id: u32) -> bool {
        self.forgotten
            .iter()
            .any(|key| key.channel == channel && key.id == id)
    }

    /// The first control id from `id` on whose key on a channel wasn't forgotten.
    fn unforgotten(&self, channel: u32, id: u32) -> Result<u32> {
        match (id..u32::MAX).find(|id| !self.is_forgotten(channel, *id)) {
            Some(id) => Ok(id),
            None => bail!("all control ids were forgotten"),
        }
    }

    /// Forgets the keys of the messages numbered below `before`, and of those that were filtered before message
    /// `before` was received: before `next`, the next index, where it is still to come. Later messages have later control ids.
    ///
    /// # Errors
    ///
    /// Where memory is refused.
    pub(crate) fn forget(&mut self, before: u32, next: usize) -> Result<(), AllocError> {
        let accepted = Told::Accepted(before);
        let floor = match self.known.iter().find(|key| key.told == accepted) {
            Some(key) => key.place,
            None => next,
        };
        let mut staying = Vec::new(self.alloc);
        for key in &self.known {
            if key.place < floor {
                self.forgotten.push(*key)?;
            } else {
                staying.push(*key)?;
            }
        }
        self.known = staying;
        self.first_id = self.first_id.saturating_add(2);
        Ok(())
    }
}
