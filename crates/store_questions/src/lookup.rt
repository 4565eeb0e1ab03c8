//! What a book says of messages and destinations.

ghost use Rattle.std.specs.Prelude.{◌≡◌, ◌<◌, ℕ, Some, IfOk, IfSome, filter, length, slice_get, take};
ghost use Rattle.std.specs.List.{filter_map};
ghost use Rattle.event_log.specs.History.{remaining, slot};
ghost use Rattle.book_core.specs.inner.Questions.{failed_as, has_control_id, queued_as};
ghost use Rattle.book_lock.specs.inner.Reading.{IsFound};

use book_core::{Book, BookRows, Failure, Front};
use book_lock::{Found, Message};
use dest_queue::SlotState;
use plan_text::Plan;
use row_store::QUEUES;
use service_answers::{SHOWN_MAX, unescaped};
use std::alloc::{AllocError, Global};

/// The index of the destination of a name.
pub(crate) fn destination_named(plan: &Plan, name: &[u8]) -> Option<u32>
    ensures { IfSome result (λ index. index < 32) }
{
    plan.rules();
    for index in 0..plan.destinations() {
        if let Some(destination) = plan.destination(index)
            && destination.name().as_bytes() == name
        {
            return Some(index);
        }
    }
    None
}

/// The state of a message at each destination, by index, where it goes there.
#[tactic(auto, using(book_lock::proofs::Filling::filled_more, book_lock::proofs::Filling::none_filled))]
fn states_of<B: BookRows>(book: &Book<B>, number: u32) -> [Option<SlotState>; QUEUES as usize]
    ensures { (d : ℕ) → d < 32 → slice_get result d ≡ Some (slot book.now number d) }
{
    let mut states = [None; QUEUES as usize];
    for d in 0..QUEUES {
        states[d as usize] = book.status(number, d);
    }
    states
}

/// What a book says of a message number.
///
/// # Errors
///
/// Where the message's bytes have more owners than can be counted.
pub(crate) fn found<B: BookRows>(book: &Book<B>, number: u32) -> Result<Found, AllocError>
    ensures { IfOk result (λ found. IsFound book.now number found) }
{
    let Some(letter) = book.message(number) else {
        return Ok(if number < book.message_count() {
            Found::Forgotten
        } else {
            Found::ToCome
        });
    };
    Ok(Found::Kept(Message {
        channel: letter.channel(),
        conn: book.connection(number),
        raw: letter.raw().share()?,
        states: states_of(book, number),
    }))
}

/// The numbers of the remembered messages with a control id (MSH-10), oldest first.
fn numbers_with<B: BookRows>(book: &Book<B>, id: &[u8]) -> Result<Vec<u32>, AllocError>
    ensures { IfOk result (λ found. found.items ≡ filter (has_control_id book.now id.now) (remaining book.now)) }
{
    book.found_among(id, book.first_remembered(), book.message_count())
}

/// The numbers of the remembered messages with a control id (MSH-10), oldest first. Where none has the id as given, it is read as the
/// log shows ids.
///
/// # Errors
///
/// Where memory is refused.
pub(crate) fn numbers_meant<B: BookRows>(
    alloc: Global,
    book: &Book<B>,
    id: &[u8],
) -> Result<Vec<u32>, AllocError> {
    let found = numbers_with(book, id)?;
    if !found.is_empty() {
        return Ok(found);
    }
    let meant = unescaped(alloc, id)?;
    numbers_with(book, &meant)
}

/// The messages in a destination's queue, in order.
fn queue<B: BookRows>(book: &Book<B>, destination: u32) -> Result<Vec<Front>, AllocError>
    ensures { IfOk result (λ found. found.items ≡ filter_map (queued_as book.now destination) (remaining book.now)) }
{
    book.queued_among(destination, book.first_remembered(), book.message_count())
}

/// The messages that failed at a destination and are remembered, in order.
fn failed<B: BookRows>(book: &Book<B>, destination: u32) -> Result<Vec<Failure>, AllocError>
    ensures { IfOk result (λ found. found.items ≡ filter_map (failed_as book.now destination) (remaining book.now)) }
{
    book.failed_among(destination, book.first_remembered(), book.message_count())
}

/// The first messages in a destination's queue, in order, as many as an answer shows, and how many it has.
///
/// # Errors
///
/// Where memory is refused.
pub(crate) fn queued<B: BookRows>(
    book: &Book<B>,
    destination: u32,
) -> Result<(Vec<Front>, u64), AllocError>
    ensures first { IfOk result (λ r. r.0.items ≡ take 100 (filter_map (queued_as book.now destination) (remaining book.now))) }
    ensures all { IfOk result (λ r. r.1 ≡ length (filter_map (queued_as book.now destination) (remaining book.now))) }
{
    let mut fronts = queue(book, destination)?;
    let all = fronts.len() as u64;
    fronts.truncate(SHOWN_MAX);
    Ok((fronts, all))
}

/// The messages that failed at a destination and are remembered: the last of them, newest first, as many as an answer shows, and how
/// many there are.
///
/// # Errors
///
/// Where memory is refused.
pub(crate) fn failures<B: BookRows>(
    alloc: Global,
    book: &Book<B>,
    destination: u32,
) -> Result<(Vec<Failure>, u64), AllocError> {
    let failed = failed(book, destination)?;
    let mut newest = Vec::new(alloc);
    for failure in failed.iter().rev().take(SHOWN_MAX) {
        newest.push(*failure)?;
    }
    Ok((newest, failed.len() as u64))
}
