//! Records are booked again, one after the other.

ghost use Rattle.std.specs.Prelude.{◌≡◌, IfErr, OnOk};
ghost use Rattle.book_replay.specs.Replay.{AreReplayed, IsStopped, after_records};

use crate::fault::ReplayError;
use crate::redo::redo;
use book_core::{Book, BookRows};
use event_records::Record;
use std::alloc::Global;

/// Books the events of records again, in their order. The history is then what the sequential engine makes of them, and each
/// arrival among them got the answer that its sender was given.
///
/// # Errors
///
/// The index of the first record at which it stops, and why. The records before it were booked again; nothing of the record
/// itself was booked, but where its fault is `Differs`: the book then has that arrival, with its other answer.
#[tactic(auto, using(crate::proofs::Runs::goes_on, crate::proofs::Runs::stops, crate::proofs::Runs::all_replayed))]
pub fn replay<S: BookRows>(
    alloc: Global,
    book: &mut Book<S>,
    records: &[Record],
) -> Result<(), ReplayError>
    ensures history { OnOk result (book.new ≡ after_records book.old records.now) }
    ensures replayed { OnOk result (AreReplayed book.old records.now) }
    ensures stopped { IfErr result (λ e. IsStopped e.index e.fault book.old book.new records.now) }
{
    for (index, record) in records.iter().enumerate() {
        match redo(alloc, book, record) {
            Ok(()) => {}
            Err(fault) => return Err(ReplayError { index, fault }),
        }
    }
    Ok(())
}
