//! All that a book shows of itself, as one text: two books of which it is the same differ in nothing that a caller sees.

use book_core::{Book, BookRows};
use plan_text::Plan;
use play_script::shown;
use stat_count::{CHANNELS, DESTINATIONS};
use std::alloc::AllocError;
use std::fmt::Write;

/// Appends how full a book is.
fn push_size<S: BookRows>(told: &mut String, book: &Book<S>) -> Result<(), AllocError> {
    write!(
        told,
        "{} entries from {}, {} held, {} owed, {} messages from {}, {} prunings, {} deployments",
        book.len(),
        book.first_place(),
        book.held(),
        book.owed(),
        book.message_count(),
        book.first_remembered(),
        book.prunings(),
        book.deployments()
    )
}

/// Appends the names of a plan's destinations, and how often a message is sent to each.
///
/// # Errors
///
/// Where memory is refused.
pub fn push_plan(told: &mut String, plan: &Plan) -> Result<(), AllocError> {
    for d in 0..plan.destinations() {
        if let Some(destination) = plan.destination(d) {
            write!(told, "; {} {}", destination.name(), destination.attempts())?;
        }
    }
    Ok(())
}

/// Appends what was counted of each channel on which anything arrived, and of each destination that anything goes to.
fn push_counts<S: BookRows>(told: &mut String, book: &Book<S>) -> Result<(), AllocError> {
    let counts = book.counts();
    for channel in 0..CHANNELS {
        let here = counts.channel(channel);
        if here.received != 0 {
            write!(told, "; channel {channel}: {here:?}")?;
        }
    }
    for d in 0..DESTINATIONS {
        let here = counts.destination(d);
        let queued = book.queue_len(d);
        if queued != 0 || here.attempts != 0 || here.failed != 0 {
            write!(told, "; destination {d}: {queued} queued, {here:?}")?;
        }
    }
    Ok(())
}

/// Appends the slots of a message.
fn push_slots<S: BookRows>(
    told: &mut String,
    book: &Book<S>,
    number: u32,
) -> Result<(), AllocError> {
    for d in 0..DESTINATIONS {
        if let Some(state) = book.status(number, d) {
            write!(told, ", {d} {state:?}")?;
        }
    }
    Ok(())
}

/// Appends what is kept of each message, and its slots.
fn push_messages<S: BookRows>(told: &mut String, book: &Book<S>) -> Result<(), AllocError> {
    for number in 0..book.message_count() {
        if let Some(letter) = book.message(number) {
            let text = shown(*told.allocator(), letter.raw().as_slice())?;
            let conn = book.connection(number);
            write!(
                told,
                "; message {number} by {conn:?} at {}: {text}",
                letter.place()
            )?;
            push_slots(told, book, number)?;
        }
    }
    Ok(())
}

/// Appends the message at the front of each queue.
fn push_fronts<S: BookRows>(told: &mut String, book: &mut Book<S>) -> Result<(), AllocError> {
    for d in 0..DESTINATIONS {
        if let Some(front) = book.front(d) {
            write!(told, "; front of {d}: {front:?}")?;
        }
    }
    Ok(())
}

/// Appends all that a book that isn't changed shows: how full it is, its plan, its statistics, its messages and their slots.
///
/// # Errors
///
/// Where memory is refused.
pub fn push_held<S: BookRows>(told: &mut String, book: &Book<S>) -> Result<(), AllocError> {
    push_size(told, book)?;
    push_plan(told, book.plan())?;
    push_counts(told, book)?;
    push_messages(told, book)
}

/// Appends all that a book shows, its queues too.
///
/// # Errors
///
/// Where memory is refused.
pub fn push_book<S: BookRows>(told: &mut String, book: &mut Book<S>) -> Result<(), AllocError> {
    push_held(told, book)?;
    push_fronts(told, book)
}
