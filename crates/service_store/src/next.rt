//! A store goes on in a new one, which begins with an opening.

ghost use Rattle.std.specs.Prelude.{◌≡◌, ◌≤◌, ◌⊎◌, [], IfOk, length};
ghost use Rattle.sqlite_trees.specs.View.{IsClean, doubt};
ghost use Rattle.event_log.specs.Folding.{pruned};
ghost use Rattle.event_store.specs.Records.{AreDurable, records_in};
ghost use Rattle.book_recovery.specs.inner.File.{IsRecovered, going_on};
ghost use Rattle.service_store.specs.inner.Starting.{bodies_in};

use crate::fault::{BookFault, NextError};
use crate::keep::{keep_first, keep_records};
use book_core::{Book, BookRows};
use book_recovery::{NextFault, VERSION_MAX, fold_all, next_file};
use event_log::PruneRefusal;
use event_store::EventStore;
use sqlite_trees::store::Store;
use std::alloc::Global;
use std::hash::RandomState;
use std::slice;

/// How many records make a store long. A long one goes on in a new store.
pub(crate) const RECORDS_LONG: u64 = 100_000;

/// With fewer prunings than this a long store goes on in a new one, which takes one of the thousand that a book can have.
pub(crate) const PRUNINGS_FEW: u32 = 900;

/// What a new store is begun with.
#[derive(Clone, Copy)]
pub(crate) struct NextRequest<'a> {
    /// The most entries that its book may hold.
    pub(crate) events_max: u32,
    /// The version of the program, at most `VERSION_MAX` bytes.
    pub(crate) version: &'a str,
    /// The highest number of a connection that a message can have come over, if one came.
    pub(crate) last_connection: Option<u32>,
    /// The moment, in milliseconds since 1970.
    pub(crate) at: i64,
}

/// Why the entries of a store's book aren't folded.
#[derive(Debug, Drop)]
pub(crate) enum FoldError {
    /// The book refuses it.
    Refused(PruneRefusal),
    /// The record of it isn't written.
    Store(BookFault),
}

/// A store and its book, whose entries are folded.
#[derive(Drop)]
pub(crate) struct Folded<S: Store, B: BookRows> {
    pub(crate) store: EventStore<S>,
    pub(crate) book: Book<B>,
}

/// Folds all entries of the book of a store, if it has any, and commits the record of that.
///
/// # Errors
///
/// `Refused`, and nothing is written; `Store` with `Write` or `NoMemory`, and what was appended is dropped when the store is opened
/// again.
pub(crate) fn fold_book<S: Store + Drop, B: BookRows + Drop>(
    alloc: Global,
    mut store: EventStore<S>,
    mut book: Book<B>,
    at: i64,
) -> Result<Folded<S, B>, FoldError>
    // The book is recovered from what the store has, if it was before.
    ensures recovered { IfOk result (λ f. IsClean (S.Store.view f.store.store)
        → IsRecovered (bodies_in (S.Store.view store.store).trees) book
        → IsRecovered (bodies_in (S.Store.view f.store.store).trees) f.book) }
    ensures folded { IfOk result (λ f. f.book.entries ≡ []) }
    ensures same { IfOk result (λ f. (f.book ≡ book) ⊎ (f.book ≡ pruned 0 book)) }
    ensures clean { IfOk result (λ f. doubt (S.Store.view store.store).is_clean
        ≤ doubt (S.Store.view f.store.store).is_clean) }
{
    if book.is_empty() {
        return Ok(Folded { store, book });
    }
    let item = match fold_all(&mut book) {
        Ok(item) => item,
        Err(refusal) => return Err(FoldError::Refused(refusal)),
    };
    match keep_records(alloc, &mut store, &book, slice::from_ref(&item), at) {
        Ok(()) => Ok(Folded { store, book }),
        Err(fault) => Err(FoldError::Store(fault)),
    }
}

/// Begins a store that has no record, and goes on from a book whose entries are folded; what is in flight in the book waits again.
/// What the store holds is committed.
///
/// # Errors
///
/// Why no file goes on from the book, or the store isn't written.
pub(crate) fn begin_next<S: Store + Drop, B: BookRows + Drop>(
    alloc: Global,
    mut events: EventStore<S>,
    book: &Book<B>,
    request: NextRequest<'_>,
    hasher: RandomState,
) -> Result<EventStore<S>, NextError>
    requires folded { book.now.entries ≡ [] }
    requires some { 1 ≤ request.events_max }
    requires few { request.events_max ≤ 1000000 }
    requires version { length request.version.now ≤ VERSION_MAX }

    // What is recovered from the new store is the book, with what was in flight given back, but for the bound, and a crash leaves
    // just that.
    ensures recovered { IfOk result (λ e. IsClean (S.Store.view e.store)
        → bodies_in (S.Store.view events.store).trees ≡ []
        → IsRecovered (bodies_in (S.Store.view e.store).trees) (going_on request.entry.events_max book.now)) }
    ensures durable { IfOk result (λ e. AreDurable (S.Store.view e.store)
        (S.Store.recovers e.store) (records_in (S.Store.view e.store).trees)) }
    ensures clean { IfOk result (λ e. doubt (S.Store.view events.store).is_clean
        ≤ doubt (S.Store.view e.store).is_clean) }
{
    let NextRequest {
        events_max,
        version,
        last_connection,
        at,
    } = request;
    let first = match next_file(alloc, book, events_max, version, last_connection, hasher) {
        Ok(first) => first,
        Err(NextFault::NoMemory) => return Err(NextError::NoMemory),
        Err(fault) => return Err(NextError::Book(fault)),
    };
    match keep_first(&mut events, "opening", first.as_slice(), at) {
        Ok(()) => Ok(events),
        Err(fault) => Err(NextError::of_write(fault)),
    }
}
