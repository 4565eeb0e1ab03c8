//! A book is recovered from the records of a file.

ghost use Rattle.std.specs.Prelude.{◌≡◌, ◌+◌, ◌<◌, ◌≤◌, ℕ, IfErr, IfOk, OnOk, Ok, Some, length, map, max};
ghost use Rattle.event_log.specs.History.{History};
ghost use Rattle.event_records.specs.inner.Encoding.{encoding};
ghost use Rattle.book_replay.specs.Replay.{IsBooked, StopsAt};
ghost use Rattle.book_recovery.specs.Seen.{last_second};
ghost use Rattle.book_recovery.specs.inner.File.{IsFailure, IsProblem, IsRecovered, StopsAtBody, bodies_of, last_connection_in, last_second_in, record_in};
ghost use Rattle.book_recovery.specs.inner.Preface.{later_of};
ghost use Rattle.book_recovery.specs.inner.Redone.{HasRedone, IsRedone};

use crate::fault::{HeaderFault, RecordProblem, RecoveryError, Stop};
use crate::opening::{Begun, beginning};
use crate::preface::later_of;
use crate::seen::{Seen, last_second};
use book_core::{Book, BookRows};
use book_replay::{ReplayFault, replay};
use event_records::{ReadError, Record, read_record};
use event_store::StoredRecord;
use std::alloc::Global;
use std::hash::RandomState;
use std::slice;

/// A book that was recovered, with what its records say beside it.
#[derive(Drop)]
pub struct Recovered<S: BookRows> {
    /// The book.
    pub book: Book<S>,
    /// How many records are behind the first, which is a header or a preface.
    pub records: usize,
    /// The highest number of a connection that a message can have come over, if one came.
    pub last_connection: Option<u32>,
    /// The last moment in the file, of a row, a take or a settlement, in seconds since 1970.
    pub last_second: u64,
}

/// The record that a body is, with nothing behind it.
fn read_body(alloc: Global, body: &[u8]) -> Result<Record, RecordProblem>
    ensures read { IfOk result (λ r. record_in body.now ≡ Some r) }
    ensures encoded { IfOk result (λ r. body.now ≡ encoding r) }
    ensures problem { (h : History) → IfErr result (λ problem. IsProblem problem h body.now) }
{
    match read_record(alloc, body) {
        Ok((item, rest)) if rest.is_empty() => Ok(item),
        Ok(_) => Err(RecordProblem::Trailing),
        Err(ReadError::NoMemory) => Err(RecordProblem::Replay(ReplayFault::NoMemory)),
        Err(ReadError::Fault(fault)) => Err(RecordProblem::Damaged(fault)),
    }
}

/// Books the event of a record again.
#[tactic(auto, using(crate::proofs::Bodies::one_booked, crate::proofs::Bodies::one_stops))]
fn redo<S: BookRows>(alloc: Global, book: &mut Book<S>, item: &Record) -> Result<(), ReplayFault>
    ensures booked { OnOk result (IsBooked book.old book.new item.now) }
    ensures stops { IfErr result (λ fault. StopsAt fault book.old book.new item.now) }
{
    match replay(alloc, book, slice::from_ref(item)) {
        Ok(()) => Ok(()),
        Err(stop) => Err(stop.fault),
    }
}

/// Books the event of a body's record again, and notes what else it says.
#[tactic(auto, using(crate::proofs::Bodies::stop_problem))]
fn redo_body<S: BookRows>(
    alloc: Global,
    book: &mut Book<S>,
    seen: &mut Seen,
    body: &[u8],
) -> Result<(), RecordProblem>
    ensures redone { OnOk result (IsRedone book.old book.new seen.old seen.new body.now) }
    ensures problem { IfErr result (λ problem. IsProblem problem book.old body.now) }
{
    let item = match read_body(alloc, body) {
        Ok(item) => item,
        Err(problem) => return Err(problem),
    };
    match redo(alloc, book, &item) {
        Ok(()) => {
            seen.note(&item);
            Ok(())
        }
        Err(fault) => Err(RecordProblem::Replay(fault)),
    }
}

/// Books the events of the records of rows again, in their order. Returns what else they say, or the index of the row at which
/// it stops, and why.
#[tactic(auto, using(crate::proofs::Bodies::goes_on, crate::proofs::Bodies::stops_at, crate::proofs::Bodies::all_done))]
fn redo_all<S: BookRows>(
    alloc: Global,
    book: &mut Book<S>,
    rows: &[StoredRecord],
) -> Result<Seen, (usize, RecordProblem)>
    ensures redone { IfOk result (λ seen. HasRedone book.old (bodies_of rows.now) book.new seen) }
    ensures stops { IfErr result (λ stop. StopsAtBody stop.0 stop.1 book.old (bodies_of rows.now)) }
    ensures inside { IfErr result (λ stop. stop.0 < usize.MAX) }
{
    let mut seen = Seen::nothing();
    for (index, row) in rows.iter().enumerate() {
        match redo_body(alloc, book, &mut seen, row.body.as_slice()) {
            Ok(()) => {}
            Err(problem) => return Err((index, problem)),
        }
    }
    Ok(seen)
}

/// Gives up a book whose recovery has stopped.
fn give_up<S: BookRows + Drop>(book: Book<S>) {
    drop(book);
}

/// What was recovered from rows, before the second of which this was the last connection, if there was one.
fn with_seen<S: BookRows>(
    book: Book<S>,
    last_connection: Option<u32>,
    seen: Seen,
    rows: &[StoredRecord],
) -> Recovered<S>
    requires first { 1 ≤ length rows.now }
    ensures book { result.book ≡ book }
    ensures records { result.records + 1 ≡ length rows.now }
    ensures connection { result.last_connection ≡ later_of last_connection seen.connection }
    ensures second { result.last_second ≡ max (last_second (map (λ r. r.at) rows.now)) seen.moment }
{
    let last = last_second(rows);
    Recovered {
        book,
        records: rows.len() - 1,
        last_connection: later_of(last_connection, seen.connection),
        last_second: if last > seen.moment {
            last
        } else {
            seen.moment
        },
    }
}

/// Recovers the book of a file from its records: takes the book with which the file begins, and books the event of each record
/// behind the first again, in their order. Where the first record is a header, the file begins with an empty book of the plan and
/// the bound in it; where it is a preface, with the book that goes on from the opening in it. Each arrival gets the answer that its
/// sender was given. The keys of the book are hashed by `hasher`.
///
/// It holds one decoded record at a time.
///
/// # Errors
///
/// Where there is neither a header nor a preface that can be read, the document of a header is no plan, no book can go on from the
/// opening of a preface, or memory is refused; and at the first record that can't be read, that the book refuses, or that it answers
/// otherwise than its sender was answered.
pub fn recover<S: BookRows + Drop>(
    alloc: Global,
    rows: &[StoredRecord],
    hasher: RandomState,
) -> Result<Recovered<S>, RecoveryError<'_>>
    // The rows are a header or a preface and the encodings of records, in order, and the history is what the sequential engine
    // makes of these records.
    ensures recovered { IfOk result (λ r. IsRecovered (bodies_of rows.now) r.book) }
    ensures records { IfOk result (λ r. r.records + 1 ≡ length rows.now) }
    ensures connection { IfOk result (λ r. r.last_connection ≡ last_connection_in (bodies_of rows.now)) }
    ensures second { IfOk result (λ r. r.last_second ≡ last_second_in rows.now) }
    ensures failure { IfErr result (IsFailure (bodies_of rows.now)) }
{
    let [first, behind @ ..] = rows else {
        return Err(RecoveryError::Header(HeaderFault::NoHeader));
    };
    let Begun {
        mut book,
        version,
        last_connection,
    } = match beginning::<S>(alloc, first.body.as_slice(), hasher) {
        Ok(begun) => begun,
        Err(error) => return Err(error),
    };
    match redo_all(alloc, &mut book, behind) {
        Ok(seen) => Ok(with_seen(book, last_connection, seen, rows)),
        Err((index, problem)) => {
            give_up(book);
            Err(RecoveryError::Stopped(Stop {
                index: index + 1,
                problem,
                version,
            }))
        }
    }
}
