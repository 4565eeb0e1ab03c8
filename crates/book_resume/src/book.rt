//! A book that goes on from an opening.

ghost use Rattle.std.specs.Prelude.{◌≡◌, IfOk, IsErrOf, OnOk, map};
ghost use Rattle.event_log.specs.History.{begun};
ghost use Rattle.event_log.specs.Room.{owed as owed_by};
ghost use Rattle.book_resume.specs.declared.fault.ResumeFault.TheVariants.{NotGood};
ghost use Rattle.book_resume.specs.inner.Resuming.{IsResumable};
ghost use Rattle.book_resume.specs.inner.Counters.{counted_with};
ghost use Rattle.book_resume.specs.inner.Keys.{known_as};
ghost use Rattle.book_resume.specs.inner.Order.{IsOrdered};
ghost use Rattle.book_resume.specs.inner.Rows.{AreRowsOf};

use crate::arrivals::add_arrivals;
use crate::counters::recount;
use crate::fault::ResumeFault;
use crate::order::is_ordered;
use crate::owing::owed_of;
use book_core::{Book, BookRows};
use dup_index::Keys;
use event_log::{Log, Snapshot};
use stat_count::Counts;
use std::alloc::Global;
use std::hash::RandomState;

/// The book of an opening with the rows, the keys and the statistics of what it remembers.
fn assembled<S: BookRows>(
    alloc: Global,
    opening: Snapshot,
    owed: u32,
    rows: S,
    keys: Keys,
    counts: Counts,
) -> Book<S>
    requires resumable { IsResumable opening }
    requires owed { owed ≡ owed_by (begun opening) }
    requires rows { AreRowsOf opening.remembered (S.rows rows) }
    requires keys { keys.known ≡ map known_as opening.remembered }
    requires counts { counts ≡ counted_with opening }
    ensures { result ≡ begun opening }
{
    let log = Log::resume(alloc, opening, owed);
    Book::of_parts(alloc, log, rows, keys, counts, 0)
}

/// What a book keeps beside its history.
#[derive(Drop)]
struct Parts<S: BookRows> {
    owed: u32,
    rows: S,
    keys: Keys,
    counts: Counts,
}

/// What a book keeps beside the history that goes on from an opening, which is in order.
///
/// # Errors
///
/// `NotGood` where one of the arrivals is no message, two have the same key, or more were delivered than attempts were begun.
fn parts_of<S: BookRows + Drop>(
    alloc: Global,
    opening: &Snapshot,
    hasher: RandomState,
) -> Result<Parts<S>, ResumeFault>
    requires ordered { IsOrdered opening.now }
    ensures resumable { OnOk result (IsResumable opening.now) }
    ensures owed { IfOk result (λ parts. parts.owed ≡ owed_by (begun opening.now)) }
    ensures rows { IfOk result (λ parts. AreRowsOf opening.now.remembered (S.rows parts.rows)) }
    ensures keys { IfOk result (λ parts. parts.keys.known ≡ map known_as opening.now.remembered) }
    ensures counts { IfOk result (λ parts. parts.counts ≡ counted_with opening.now) }
    ensures refused { IsErrOf result NotGood → ¬ IsResumable opening.now }
{
    opening.plan().rules();
    let arrivals = opening.remembered();
    let mut rows = S::make(alloc);
    let mut keys = Keys::new(alloc, hasher);
    add_arrivals(alloc, &mut rows, &mut keys, arrivals)?;
    let counts = recount(alloc, opening)?;
    let owed = owed_of(opening.plan(), arrivals) as u32;
    Ok(Parts {
        owed,
        rows,
        keys,
        counts,
    })
}

/// The book that goes on from an opening, with none booked since. Its keys are hashed by `hasher`.
///
/// # Errors
///
/// `NotGood` where no book can go on from the opening, or `NoMemory` where memory is refused.
pub fn resume<S: BookRows + Drop>(
    alloc: Global,
    opening: Snapshot,
    hasher: RandomState,
) -> Result<Book<S>, ResumeFault>
    ensures book { IfOk result (λ book. book ≡ begun opening) }
    ensures resumable { OnOk result (IsResumable opening) }
    ensures refused { IsErrOf result NotGood → ¬ IsResumable opening }
{
    if !is_ordered(&opening)? {
        return Err(ResumeFault::NotGood);
    }
    let Parts {
        owed,
        rows,
        keys,
        counts,
    } = parts_of(alloc, &opening, hasher)?;
    Ok(assembled(alloc, opening, owed, rows, keys, counts))
}
