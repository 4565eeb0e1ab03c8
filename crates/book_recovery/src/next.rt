//! The first record of a new file, which goes on from a book. What was in flight in the book waits again.

ghost use Rattle.std.specs.Prelude.{◌≡◌, ◌<◌, ◌≤◌, ◌^◌, ◌⊎◌, [], ◌∷◌, Err, IfErr, IfOk, IfSome, IsNone, OnErr, OnOk, Some, length};
ghost use Rattle.event_log.specs.Folding.{pruned};
ghost use Rattle.event_log.specs.History.{Snapshot as Opening};
ghost use Rattle.opening_records.specs.inner.Openings.{IsEncoding, IsTooLong, with_bound};
ghost use Rattle.opening_maps.specs.inner.GivenBack.{given_back};
ghost use Rattle.book_replay.specs.Replay.{IsBooked};
ghost use Rattle.book_recovery.specs.declared.next.NextFault.TheVariants.{NoMemory};
ghost use Rattle.book_resume.specs.inner.Resuming.{IsResumable};
ghost use Rattle.book_recovery.specs.inner.File.{IsOpeningOf, IsRecovered, MayBeOpened, going_on, last_connection_in};
ghost use Rattle.book_recovery.specs.inner.Preface.{last_before, preface_of};

use crate::fault::RecoveryError;
use crate::header::VERSION_MAX;
use crate::opening::opened;
use crate::preface::{Preface, write_preface};
use book_core::{Book, BookRows};
use event_log::{PruneRefusal, Snapshot};
use event_records::Record;
use opening_maps::given_back;
use opening_records::{OpeningFault, put_opening};
use std::alloc::{AllocError, Global};
use std::hash::RandomState;
use thiserror::Error;

/// Why no file goes on from a book.
#[derive(Clone, Copy, Debug, PartialEq, Eq, Error)]
pub enum NextFault {
    /// An allocation was refused.
    #[error("out of memory")]
    NoMemory,
    /// A text of the book has 4 GiB or more, or there are 2^32 of its arrivals or more.
    #[error("the book is too long for a record")]
    TooLong,
    /// A book of this bound can't go on from the book: more may have to be booked of its messages.
    #[error("the book can't go on with this bound of its entries")]
    NotGood,
    /// All numbers of connections are used.
    #[error("no number of a connection is left")]
    UsedUp,
}

impl From<AllocError> for NextFault {
    ghost from_gives = { λ _ e. e ≡ NoMemory };

    fn from(_: AllocError) -> NextFault {
        NextFault::NoMemory
    }
}

/// Folds all entries of a book, of which no message is forgotten. Returns the record of that, which is to be appended to the file.
///
/// # Errors
///
/// `TooMany` where a thousand prunings were made, or `NoMemory`; the book is unchanged.
pub fn fold_all<S: BookRows>(book: &mut Book<S>) -> Result<Record, PruneRefusal>
    ensures booked { IfOk result (λ r. IsBooked book.old book.new r) }
    ensures folded { OnOk result (book.new ≡ pruned 0 book.old) }
    ensures unchanged { OnErr result (book.new ≡ book.old) }
{
    book.prune(0)?;
    Ok(Record::Prune { before: 0 })
}

/// The first number behind the last, or 0 where there is no last. None where there is none.
fn first_unused(last: Option<u32>) -> Option<u32>
    ensures first { IfSome result (λ number. last_before number ≡ last) }
    ensures small { IfSome result (λ number. number < 2 ^ 32) }
    ensures none { IsNone result → last ≡ Some u32.MAX }
{
    match last {
        Some(last) => last.checked_add(1),
        None => Some(0),
    }
}

/// The bytes of an opening, with this bound of its entries.
fn encoded(alloc: Global, opening: &Snapshot, events_max: u32) -> Result<Vec<u8>, NextFault>
    ensures encoded { IfOk result (λ v. IsEncoding (with_bound events_max opening.now) v.items) }
    ensures too_long { result ≡ Err NextFault.TooLong → IsTooLong (with_bound events_max opening.now) }
    ensures fault { IfErr result (λ e. (e ≡ NextFault.NoMemory) ⊎ (e ≡ NextFault.TooLong)) }
{
    let mut bytes = Vec::new(alloc);
    match put_opening(&mut bytes, opening, events_max) {
        Ok(()) => Ok(bytes),
        Err(OpeningFault::TooLong) => Err(NextFault::TooLong),
        Err(_) => Err(NextFault::NoMemory),
    }
}

/// Gives up a book that was made to see that it can be.
fn give_up<S: BookRows + Drop>(book: Book<S>) {
    drop(book);
}

/// Sees whether a book can go on from the opening of a preface.
fn try_opening<S: BookRows + Drop>(
    alloc: Global,
    preface: Preface<'_>,
    hasher: RandomState,
) -> Result<(), NextFault>
    ensures good { OnOk result (MayBeOpened (preface_of preface.entry)) }
    ensures not_good { result ≡ Err NextFault.NotGood → (o : Opening) → IsOpeningOf (preface_of preface.entry) o → ⊥ }
    ensures fault { IfErr result (λ e. (e ≡ NextFault.NoMemory) ⊎ (e ≡ NextFault.NotGood)) }
{
    match opened::<S>(alloc, preface, hasher) {
        Ok(book) => {
            give_up(book);
            Ok(())
        }
        Err(RecoveryError::NoMemory) => Err(NextFault::NoMemory),
        Err(_) => Err(NextFault::NotGood),
    }
}

/// The first record of a file that goes on from a book, whose entries are folded, with this bound of its entries. What is in flight
/// in the book waits again in the file, due at once, and the attempt that was under way is not counted. The book is made of the record
/// once, to see that it can be recovered. `last_connection` is the highest number of a connection that a message can have come over,
/// if one came.
///
/// # Errors
///
/// `NotGood` where the bound is too small for what may have to be booked of the book's messages: one entry more for each that was in
/// flight. `TooLong`, `UsedUp` and `NoMemory`.
pub fn next_file<S: BookRows + Drop>(
    alloc: Global,
    book: &Book<S>,
    events_max: u32,
    version: &str,
    last_connection: Option<u32>,
    hasher: RandomState,
) -> Result<Vec<u8>, NextFault>
    requires folded { book.now.entries ≡ [] }
    requires some { 1 ≤ events_max }
    requires few { events_max ≤ 1000000 }
    requires version { length version.now ≤ VERSION_MAX }

    // What is recovered from a file that has just this record is the book, with what was in flight given back, but for the bound.
    ensures recovered { IfOk result (λ first. IsRecovered (first.items ∷ []) (going_on events_max book.now)) }
    ensures connection { IfOk result (λ first. last_connection_in (first.items ∷ []) ≡ last_connection) }

    // Each refusal is that of the opening, unless memory ran out.
    ensures not_good { result ≡ Err NextFault.NotGood → IsResumable (with_bound events_max (given_back book.now.opening)) → ⊥ }
    ensures too_long { result ≡ Err NextFault.TooLong → IsTooLong (with_bound events_max (given_back book.now.opening)) }
    ensures used_up { result ≡ Err NextFault.UsedUp → last_connection ≡ Some u32.MAX }
{
    let Some(connections) = first_unused(last_connection) else {
        return Err(NextFault::UsedUp);
    };
    let waiting = given_back(alloc, book.opening())?;
    let opening = encoded(alloc, &waiting, events_max)?;
    let preface = Preface {
        events_max,
        version,
        connections,
        opening: opening.as_slice(),
    };
    try_opening::<S>(alloc, preface, hasher)?;
    Ok(write_preface(alloc, &preface)?)
}
