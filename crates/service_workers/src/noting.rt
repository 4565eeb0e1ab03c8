//! What a site notes about messages beside its book.

use crate::site::{Crew, Site};
use book_lock::Sharing;
use message_notes::{DeliveryNote, MessageNote, Notes, Reception};
use std::alloc::{AllocError, Global};
use std::net::SocketAddr;

/// What is noted about the messages that the book remembers, by their numbers.
pub(crate) type MessageNotes = Notes<Box<MessageNote>>;

/// What is noted about a message, taken out of the notes; where there is nothing, a note without anything.
fn taken(
    alloc: Global,
    notes: &mut MessageNotes,
    number: u32,
) -> Result<Box<MessageNote>, AllocError> {
    match notes.take(number) {
        Some(note) => Ok(note),
        None => Box::new(alloc, MessageNote::new(alloc)).map_err(AllocError::from),
    }
}

/// Notes how the delivery of a message to a destination goes. Where memory is refused, it isn't known any more.
fn put_delivery(alloc: Global, notes: &mut MessageNotes, number: u32, delivery: DeliveryNote) {
    if let Ok(mut note) = taken(alloc, notes, number) {
        let _ = note.put(delivery);
        let _ = notes.put(number, note);
    }
}

/// Notes that a message was cancelled at the destinations of a mask. Where memory is refused, it isn't known.
fn put_cancelled(
    alloc: Global,
    notes: &mut MessageNotes,
    number: u32,
    destinations: u32,
    second: u64,
) {
    if let Ok(mut note) = taken(alloc, notes, number) {
        for destination in 0..u32::BITS {
            if destinations.checked_shr(destination).unwrap_or(0) % 2 == 1 {
                let _ = note.end(alloc, destination, second);
            }
        }
        let _ = notes.put(number, note);
    }
}

impl<A: Sharing, H: Crew> Site<'_, A, H> {
    /// Notes that a message was accepted over a connection from this address. Where memory is refused, it isn't known.
    pub(crate) fn note_accepted(&self, number: u32, peer: SocketAddr) {
        let second = self.seconds();
        let mut notes = self.notes.lock(self.rt);
        if let Ok(mut note) = taken(self.alloc, &mut notes, number) {
            note.reception = Some(Reception { second, peer });
            let _ = notes.put(number, note);
        }
    }

    /// Notes how the delivery of a message to a destination goes.
    pub(crate) fn note_delivery(&self, number: u32, delivery: DeliveryNote) {
        put_delivery(self.alloc, &mut self.notes.lock(self.rt), number, delivery);
    }

    /// Notes that a message was cancelled at the destinations of this mask, one bit each.
    pub fn note_cancelled(&self, number: u32, destinations: u32) {
        let second = self.seconds();
        put_cancelled(
            self.alloc,
            &mut self.notes.lock(self.rt),
            number,
            destinations,
            second,
        );
    }

    /// What is noted about a message; none where it was received before the service started and not sent since, or is forgotten.
    ///
    /// # Errors
    ///
    /// Where memory is refused.
    pub fn note(&self, number: u32) -> Result<Option<MessageNote>, AllocError> {
        match self.notes.lock(self.rt).get(number) {
            Some(note) => Ok(Some(note.copy(self.alloc)?)),
            None => Ok(None),
        }
    }

    /// Forgets what is noted about the messages of the numbers below this one.
    pub(crate) fn forget_notes(&self, first: u32) {
        self.notes.lock(self.rt).forget_below(first);
    }
}
