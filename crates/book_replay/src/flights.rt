//! Attempts that were in flight are settled as ones to be made again.

ghost use Rattle.std.specs.Prelude.{◌≡◌, IfOk, IsFalse, IsTrue, OnOk, map};
ghost use Rattle.book_replay.specs.inner.Flights.{flight_at, flights, settled_again};
ghost use Rattle.book_replay.specs.Replay.{AreReplayed, IsReplayed, after_record, after_records};

use book_core::{Book, BookRows, Ticket};
use dest_queue::{Outcome, SlotState};
use event_records::Record;
use hl7_head::Moment;
use row_store::QUEUES;
use std::alloc::{AllocError, Global};

/// The attempt that is in flight at the front of queue `d`, if there is one.
fn flight_at<S: BookRows>(book: &mut Book<S>, d: u32) -> Option<Ticket>
    ensures flight { result ≡ flight_at book.old d }
    ensures unchanged { book.new ≡ book.old }
{
    let front = book.front(d)?;
    match front.state {
        SlotState::InFlight { attempt } => Some(Ticket {
            number: front.number,
            destination: d,
            attempt,
        }),
        _ => None,
    }
}

/// The attempts that are in flight at the fronts of the queues.
fn flights<S: BookRows>(alloc: Global, book: &mut Book<S>) -> Result<Vec<Ticket>, AllocError>
    ensures flights { IfOk result (λ found. found.items ≡ flights book.old) }
    ensures unchanged { book.new ≡ book.old }
{
    let mut found = Vec::new(alloc);
    for d in 0..QUEUES {
        if let Some(ticket) = flight_at(book, d) {
            found.push(ticket)?;
        }
    }
    Ok(found)
}

/// Settles an attempt as one to be made again. Returns whether it was settled.
#[tactic(auto, using(crate::proofs::Steps::settled_ok, crate::proofs::Steps::settle_booked))]
fn settle_again<S: BookRows>(book: &mut Book<S>, ticket: Ticket, now: Moment) -> bool
    ensures history { book.new ≡ after_record book.old (settled_again now ticket) }
    ensures replayed { IsTrue result → IsReplayed book.old (settled_again now ticket) }
    ensures unchanged { IsFalse result → book.new ≡ book.old }
{
    book.settle(&ticket, Outcome::Again, now).is_ok()
}

/// Settles attempts as ones to be made again. Returns the records of those that were settled.
#[tactic(auto, using(crate::proofs::Runs::all_settled))]
fn settle_each<S: BookRows>(
    alloc: Global,
    book: &mut Book<S>,
    tickets: &[Ticket],
    now: Moment,
) -> Result<Vec<Record>, AllocError>
    ensures flights { OnOk result (book.new ≡ after_records book.old (map (settled_again now) tickets.now)) }
    ensures history { IfOk result (λ settled. book.new ≡ after_records book.old settled.items) }
    ensures replayed { IfOk result (λ settled. AreReplayed book.old settled.items) }
{
    let mut settled = Vec::new(alloc);
    for index in 0..tickets.len() {
        let ticket = &tickets[index];
        if settle_again(book, *ticket, now) {
            settled.push(Record::Settle {
                ticket: *ticket,
                outcome: Outcome::Again,
                now,
            })?;
        }
    }
    Ok(settled)
}

/// Settles the attempts that are in flight at the fronts of the queues as ones to be made again, since the process that made
/// them is gone. Returns the records of these settlements, for the journal.
///
/// # Errors
///
/// Where memory is refused. Some of the attempts may have been settled then.
pub fn settle_flights<S: BookRows>(
    alloc: Global,
    book: &mut Book<S>,
    now: Moment,
) -> Result<Vec<Record>, AllocError>
    // Each attempt that was in flight is settled.
    ensures flights { OnOk result (book.new ≡ after_records book.old (map (settled_again now) (flights book.old))) }

    // The records make the same of the history, and a replay of them stops at none.
    ensures history { IfOk result (λ settled. book.new ≡ after_records book.old settled.items) }
    ensures replayed { IfOk result (λ settled. AreReplayed book.old settled.items) }
{
    let tickets = flights(alloc, book)?;
    settle_each(alloc, book, tickets.as_slice(), now)
}
