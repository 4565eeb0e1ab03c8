//! What is noted about a message beside the book, as answers show it.

ghost use Rattle.std.specs.Prelude.{◌≡◌};
ghost use Rattle.std.specs.List.{list_any};
ghost use Rattle.service_answers.specs.inner.Fates.{fate_of, has_failed, is_live};

use crate::time::Utc;
use dest_queue::SlotState;
use message_notes::{DeliveryNote, MessageNote};
use std::alloc::AllocError;

/// What became of a message, over all its destinations.
#[derive(Clone, Copy, Debug, PartialEq, Eq)]
pub(crate) enum Fate {
    /// It waits, or is in flight, somewhere.
    Waiting,
    /// It is nowhere to be delivered any more, and failed somewhere.
    Failed,
    /// It was delivered wherever it goes.
    Delivered,
}

/// Whether a message is still to be delivered, by its state at a destination.
fn is_live(state: Option<SlotState>) -> bool
    ensures { result ≡ is_live state }
{
    match state {
        Some(SlotState::Waiting { .. } | SlotState::InFlight { .. }) => true,
        _ => false,
    }
}

/// Whether a message failed, by its state at a destination.
fn has_failed(state: Option<SlotState>) -> bool
    ensures { result ≡ has_failed state }
{
    match state {
        Some(SlotState::Failed(_)) => true,
        _ => false,
    }
}

/// Whether a message is still to be delivered somewhere.
fn is_live_anywhere(states: &[Option<SlotState>]) -> bool
    ensures { result ≡ list_any is_live states.now }
{
    states.iter().any(|state| is_live(*state))
}

/// Whether a message failed somewhere.
fn has_failed_anywhere(states: &[Option<SlotState>]) -> bool
    ensures { result ≡ list_any has_failed states.now }
{
    states.iter().any(|state| has_failed(*state))
}

/// What became of a message, by its states at all destinations.
pub(crate) fn fate_of(states: &[Option<SlotState>]) -> Fate
    ensures { result ≡ fate_of states.now }
{
    if is_live_anywhere(states) {
        Fate::Waiting
    } else if has_failed_anywhere(states) {
        Fate::Failed
    } else {
        Fate::Delivered
    }
}

/// Adds what became of a message.
///
/// # Errors
///
/// Where memory is refused.
pub(crate) fn add_fate(text: &mut String, states: &[Option<SlotState>]) -> Result<(), AllocError> {
    match fate_of(states) {
        Fate::Waiting => writeln!(text, "outcome waiting"),
        Fate::Failed => writeln!(text, "outcome failed"),
        Fate::Delivered => writeln!(text, "outcome delivered"),
    }
}

/// Adds when and from where a message was received.
///
/// # Errors
///
/// Where memory is refused.
pub(crate) fn add_reception(
    text: &mut String,
    note: Option<&MessageNote>,
) -> Result<(), AllocError> {
    match note {
        Some(
            MessageNote {
                reception: Some(reception),
                ..
            },
        ) => write!(
            text,
            "received {} from {}",
            Utc(reception.second),
            reception.peer
        ),
        _ => write!(
            text,
            "received before the service started, or at this moment"
        ),
    }
}

/// Adds the last attempt to deliver a message to a destination: its number, when it was settled, and why it failed, if it did.
fn add_attempt(text: &mut String, note: &DeliveryNote) -> Result<(), AllocError> {
    if let Some(tried) = note.tried {
        write!(text, "; attempt {} at {}", note.attempts, Utc(tried))?;
    }
    if let Some(why) = &note.why {
        write!(text, ": {why}")?;
    }
    Ok(())
}

/// Adds how the delivery of a message to a destination went, where `is_begun` says that an attempt was made or it ended.
///
/// # Errors
///
/// Where memory is refused.
pub(crate) fn add_delivery(
    text: &mut String,
    note: Option<&DeliveryNote>,
    is_begun: bool,
) -> Result<(), AllocError> {
    let Some(note) = note else {
        if is_begun {
            write!(
                text,
                "; the last attempt was before the service started, or at this moment"
            )?;
        }
        return Ok(());
    };
    add_attempt(&mut *text, note)?;
    if let Some(ended) = note.ended {
        write!(text, "; ended at {}", Utc(ended))?;
    }
    if let Some(words) = &note.words {
        write!(text, "; the answer says {words}")?;
    }
    Ok(())
}

/// Whether an attempt to deliver a message was made or its delivery ended, by its state at a destination.
pub(crate) fn is_begun(state: SlotState) -> bool {
    match state {
        SlotState::Waiting { attempts, .. } => attempts > 0,
        SlotState::InFlight { attempt } => attempt > 1,
        SlotState::Delivered | SlotState::Failed(_) => true,
    }
}

/// What is noted about the delivery of a message to a destination.
pub(crate) fn delivery_of(note: &Option<MessageNote>, destination: u32) -> Option<&DeliveryNote> {
    match note {
        Some(note) => note.delivery(destination),
        None => None,
    }
}
