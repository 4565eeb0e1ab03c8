//! What is noted about a message.

ghost use Rattle.std.specs.Prelude.{◌≡◌, ◌≢◌, ℕ, None, Some, option_copied, option_map, IfOk, OnOk};
ghost use Rattle.message_notes.specs.inner.Deliveries.{delivery, without};

use std::alloc::{AllocError, Global};
use std::net::SocketAddr;

/// When and from where a message was received.
#[derive(Clone, Copy, Debug, PartialEq, Eq)]
pub struct Reception {
    /// When it was accepted, in seconds since 1970.
    pub second: u64,
    /// The address that its connection came from.
    pub peer: SocketAddr,
}

/// How the delivery of a message to a destination goes.
#[derive(Drop)]
pub struct DeliveryNote {
    /// The destination, by its index in the plan.
    pub destination: u32,
    /// The number of the last attempt, which is how many were made; 0 where none was.
    pub attempts: u32,
    /// When the last attempt was settled, in seconds since 1970, where one was made.
    pub tried: Option<u64>,
    /// When the message was delivered there or failed, in seconds since 1970; none while it waits.
    pub ended: Option<u64>,
    /// Why the last attempt failed, where it did.
    pub why: Option<String>,
    /// What the destination said in its answer to that attempt, where that is shown.
    pub words: Option<String>,
}

/// What is noted about a message: when and from where it was received, where that is known, and how its deliveries go, one note for
/// a destination.
#[derive(Drop)]
pub struct MessageNote {
    /// When and from where it was received; none where that was before the service started.
    pub reception: Option<Reception>,
    deliveries: Vec<DeliveryNote>,
}

/// A text once more.
fn copied(alloc: Global, text: &Option<String>) -> Result<Option<String>, AllocError> {
    match text {
        Some(text) => Ok(Some(String::from_str(alloc, text)?)),
        None => Ok(None),
    }
}

/// Drops the note about the delivery to a destination, and no other.
fn remove(notes: &mut Vec<DeliveryNote>, destination: u32)
    ensures { notes.new.items ≡ without destination notes.old.items }
{
    notes.retain(|note| note.destination != destination);
}

impl DeliveryNote {
    /// About a delivery of which no attempt was made.
    fn new(destination: u32) -> DeliveryNote
        ensures { result.destination ≡ destination }
    {
        DeliveryNote {
            destination,
            attempts: 0,
            tried: None,
            ended: None,
            why: None,
            words: None,
        }
    }

    /// The same once more.
    ///
    /// # Errors
    ///
    /// Where memory is refused.
    fn copy(&self, alloc: Global) -> Result<DeliveryNote, AllocError>
        ensures { IfOk result (λ copied. copied.destination ≡ self.now.destination) }
    {
        Ok(DeliveryNote {
            destination: self.destination,
            attempts: self.attempts,
            tried: self.tried,
            ended: self.ended,
            why: copied(alloc, &self.why)?,
            words: copied(alloc, &self.words)?,
        })
    }
}

impl MessageNote {
    /// About a message of which nothing is known.
    pub fn new(alloc: Global) -> MessageNote
        ensures { (d : ℕ) → delivery d result.deliveries.items ≡ None }
    {
        MessageNote {
            reception: None,
            deliveries: Vec::new(alloc),
        }
    }

    /// How the delivery to the destination at this index goes, where anything is noted of it.
    pub fn delivery(&self, destination: u32) -> Option<&DeliveryNote>
        ensures { option_copied result ≡ delivery destination self.now.deliveries.items }
    {
        for note in &self.deliveries {
            if note.destination == destination {
                return Some(note);
            }
        }
        None
    }

    /// Takes the note about the delivery to a destination in place of the one before. Where memory is refused, there is none of that
    /// destination any more.
    ///
    /// # Errors
    ///
    /// Where memory is refused.
    #[tactic(auto, using(crate::proofs::Replaced::put_here, crate::proofs::Replaced::put_others, crate::proofs::Replaced::left_others))]
    pub fn put(&mut self, note: DeliveryNote) -> Result<(), AllocError>
        ensures here { OnOk result (delivery note.destination self.new.deliveries.items ≡ Some note) }
        ensures others { (d : ℕ) → d ≢ note.destination
            → delivery d self.new.deliveries.items ≡ delivery d self.old.deliveries.items }
    {
        remove(&mut self.deliveries, note.destination);
        self.deliveries.push(note)?;
        Ok(())
    }

    /// What is noted about the delivery to a destination, as a copy; where there is nothing, that no attempt was made.
    ///
    /// # Errors
    ///
    /// Where memory is refused.
    fn delivery_copied(&self, alloc: Global, destination: u32) -> Result<DeliveryNote, AllocError> {
        match self.delivery(destination) {
            Some(note) => note.copy(alloc),
            None => Ok(DeliveryNote::new(destination)),
        }
    }

    /// Notes when the delivery to a destination ended, in seconds since 1970. Where memory is refused, there may be no note about that
    /// destination any more.
    ///
    /// # Errors
    ///
    /// Where memory is refused.
    pub fn end(&mut self, alloc: Global, destination: u32, second: u64) -> Result<(), AllocError>
        ensures ended { OnOk result (
            option_map (λ note. note.ended) (delivery destination self.new.deliveries.items)
            ≡ Some (Some second)) }
        ensures others { (d : ℕ) → d ≢ destination
            → delivery d self.new.deliveries.items ≡ delivery d self.old.deliveries.items }
    {
        let note = self.delivery_copied(alloc, destination)?;
        self.put(DeliveryNote {
            destination,
            ended: Some(second),
            ..note
        })
    }

    /// The same once more.
    ///
    /// # Errors
    ///
    /// Where memory is refused.
    pub fn copy(&self, alloc: Global) -> Result<MessageNote, AllocError> {
        let mut deliveries = Vec::new(alloc);
        for note in &self.deliveries {
            deliveries.push(note.copy(alloc)?)?;
        }
        Ok(MessageNote {
            reception: self.reception,
            deliveries,
        })
    }
}
