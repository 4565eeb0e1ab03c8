//! Attempts that a stop of the service interrupted.

ghost use Rattle.std.specs.Prelude.{◌≡◌, IfOk, OnOk, count_by, map};
ghost use Rattle.std.specs.List.{filter_map};
ghost use Rattle.book_replay.specs.inner.Flights.{flights, settled_again};
ghost use Rattle.book_replay.specs.Replay.{AreReplayed, after_records};
ghost use Rattle.book_recovery.specs.Interrupting.{failed_at, failed_in, flying, is_flying};

use book_core::{Book, BookRows, Ticket};
use book_replay::settle_flights;
use dest_queue::SlotState;
use event_records::Record;
use hl7_head::Moment;
use stat_count::DestinationCounts;
use std::alloc::{AllocError, Global};

/// Attempts that a stop of the service interrupted, once they are settled.
#[derive(Drop)]
pub struct SettledFlights {
    /// The records of their settlements, which are to be appended to the file.
    pub records: Vec<Record>,
    /// Those that were the last: their messages have failed, though they may never have been delivered.
    pub failed: Vec<Ticket>,
}

/// Whether a message is in flight at a destination with these counters.
fn is_flying(counts: &DestinationCounts) -> bool
    ensures { result ≡ is_flying counts.now }
{
    counts.inflight > 0
}

/// At how many destinations with these counters a message is in flight.
fn flying_among(destinations: &[DestinationCounts]) -> usize
    ensures { result ≡ count_by is_flying destinations.now }
{
    destinations
        .iter()
        .filter(|counts| is_flying(counts))
        .count()
}

/// At how many destinations a message is in flight: none has more than one.
pub fn flying<S: BookRows>(book: &Book<S>) -> usize
    ensures { result ≡ flying book.now }
{
    flying_among(book.counts().destinations())
}

/// An attempt, where its message has failed at its destination.
fn failed_at<S: BookRows>(book: &Book<S>, ticket: Ticket) -> Option<Ticket>
    ensures { result ≡ failed_at book.now ticket }
{
    match book.status(ticket.number, ticket.destination) {
        Some(SlotState::Failed(_)) => Some(ticket),
        _ => None,
    }
}

/// The attempt that a record settles, where its message has failed at its destination.
fn failed_in<S: BookRows>(book: &Book<S>, item: &Record) -> Option<Ticket>
    ensures { result ≡ failed_in book.now item.now }
{
    match item {
        Record::Settle { ticket, .. } => failed_at(book, *ticket),
        _ => None,
    }
}

/// The attempts that records settle whose messages have failed.
fn failed_among<S: BookRows>(
    alloc: Global,
    book: &Book<S>,
    records: &[Record],
) -> Result<Vec<Ticket>, AllocError>
    ensures { IfOk result (λ failed. failed.items ≡ filter_map (failed_in book.now) records.now) }
{
    let mut failed = Vec::new(alloc);
    for item in records {
        if let Some(ticket) = failed_in(book, item) {
            failed.push(ticket)?;
        }
    }
    Ok(failed)
}

/// Settles the attempts that are in flight as ones to be made again, since the process that made them is gone. Returns the
/// records of that, and those attempts that were the last that a message has.
///
/// # Errors
///
/// Where memory is refused. Some of the attempts may have been settled then.
pub fn settle_interrupted<S: BookRows>(
    alloc: Global,
    book: &mut Book<S>,
    now: Moment,
) -> Result<SettledFlights, AllocError>
    // Each attempt that was in flight at the front of a queue is settled.
    ensures flights { OnOk result (book.new ≡ after_records book.old (map (settled_again now) (flights book.old))) }

    // The records make the same of the history, and a replay of them stops at none.
    ensures history { IfOk result (λ found. book.new ≡ after_records book.old found.records.items) }
    ensures replayed { IfOk result (λ found. AreReplayed book.old found.records.items) }
    ensures failed { IfOk result (λ found. found.failed.items ≡ filter_map (failed_in book.new) found.records.items) }
{
    let records = settle_flights(alloc, book, now)?;
    let failed = failed_among(alloc, book, records.as_slice())?;
    Ok(SettledFlights { records, failed })
}
