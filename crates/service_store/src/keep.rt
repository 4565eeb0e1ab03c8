//! Records are appended to a store and committed.

ghost use Rattle.std.specs.Prelude.{◌≡◌, ◌≤◌, [], ◌∷◌, ◌++◌, IfErr, IfOk, OnOk, map};
ghost use Rattle.std.specs.List.{AllByRecursion};
ghost use Rattle.sqlite_trees.specs.View.{IsClean, doubt};
ghost use Rattle.event_records.specs.inner.Encoding.{encoding};
ghost use Rattle.event_records.specs.inner.Fields.{Fits};
ghost use Rattle.event_store.specs.Records.{AreDurable, records_in};
ghost use Rattle.service_store.specs.inner.Faults.{IsWriteFailure};
ghost use Rattle.service_store.specs.inner.Starting.{bodies_in};

use crate::fault::BookFault;
use book_core::{Book, BookRows};
use dest_queue::SlotState;
use event_records::{Record, put_record};
use event_store::{Columns, EventStore};
use plan_text::Plan;
use sqlite_trees::store::Store;
use std::alloc::{AllocError, Global};

/// The columns of a row of this kind that says nothing else, written at this moment, in milliseconds since 1970.
fn bare(kind: &'static str, at: i64) -> Columns<'static> {
    Columns {
        at,
        peer: "",
        kind,
        channel: "",
        number: 0,
        control_id: b"",
        destination: "",
        outcome: "",
    }
}

/// What became of a message at a destination.
fn outcome_text(state: Option<SlotState>) -> &'static str {
    match state {
        Some(SlotState::Waiting { .. }) => "waiting",
        Some(SlotState::Failed(_)) => "failed",
        _ => "",
    }
}

/// The name of a destination.
fn destination_name(plan: &Plan, index: u32) -> &str {
    match plan.destination(index) {
        Some(destination) => destination.name(),
        None => "",
    }
}

/// What the row of a record of a start says to people: it is of a deployment, a settlement or a pruning.
fn columns_of<'a, B: BookRows>(book: &'a Book<B>, item: &Record, at: i64) -> Columns<'a> {
    match item {
        Record::Settle { ticket, .. } => Columns {
            at,
            peer: "",
            kind: "settlement",
            channel: "",
            number: i64::from(ticket.number),
            control_id: b"",
            destination: destination_name(book.plan(), ticket.destination),
            outcome: outcome_text(book.status(ticket.number, ticket.destination)),
        },
        Record::Prune { .. } => bare("pruning", at),
        _ => bare("deployment", at),
    }
}

/// Appends a row with this body.
fn append<S: Store>(
    events: &mut EventStore<S>,
    body: &[u8],
    columns: &Columns<'_>,
) -> Result<(), BookFault>
    ensures added { OnOk result (IsClean (S.Store.view events.new.store)
        → bodies_in (S.Store.view events.new.store).trees
        ≡ bodies_in (S.Store.view events.old.store).trees ++ body.now ∷ []) }
    ensures clean { doubt (S.Store.view events.old.store).is_clean
        ≤ doubt (S.Store.view events.new.store).is_clean }
    ensures first { events.new.first ≡ events.old.first }
    ensures failure { IfErr result IsWriteFailure }
{
    match events.append(body, columns) {
        Ok(()) => Ok(()),
        Err(error) => Err(BookFault::of_write(error)),
    }
}

/// The body of the row of a record: its encoding.
fn body_of(alloc: Global, item: &Record) -> Result<Vec<u8>, AllocError>
    ensures bytes { IfOk result (λ body. body.items ≡ encoding item.now) }
    ensures fits { OnOk result (Fits item.now) }
{
    let mut body = Vec::new(alloc);
    put_record(&mut body, item)?;
    Ok(body)
}

/// Appends the row of a record.
fn append_record<S: Store, B: BookRows>(
    alloc: Global,
    events: &mut EventStore<S>,
    book: &Book<B>,
    item: &Record,
    at: i64,
) -> Result<(), BookFault>
    ensures added { OnOk result (IsClean (S.Store.view events.new.store)
        → bodies_in (S.Store.view events.new.store).trees
        ≡ bodies_in (S.Store.view events.old.store).trees ++ encoding item.now ∷ []) }
    ensures fits { OnOk result (Fits item.now) }
    ensures clean { doubt (S.Store.view events.old.store).is_clean
        ≤ doubt (S.Store.view events.new.store).is_clean }
    ensures first { events.new.first ≡ events.old.first }
    ensures failure { IfErr result IsWriteFailure }
{
    let body = body_of(alloc, item)?;
    append(events, body.as_slice(), &columns_of(book, item, at))?;
    Ok(())
}

/// Appends the rows of records, in their order.
fn append_all<S: Store, B: BookRows>(
    alloc: Global,
    events: &mut EventStore<S>,
    book: &Book<B>,
    items: &[Record],
    at: i64,
) -> Result<(), BookFault>
    ensures added { OnOk result (IsClean (S.Store.view events.new.store)
        → bodies_in (S.Store.view events.new.store).trees
        ≡ bodies_in (S.Store.view events.old.store).trees ++ map encoding items.now) }
    ensures fits { OnOk result (AllByRecursion Fits items.now) }
    ensures clean { doubt (S.Store.view events.old.store).is_clean
        ≤ doubt (S.Store.view events.new.store).is_clean }
    ensures first { events.new.first ≡ events.old.first }
    ensures failure { IfErr result IsWriteFailure }
{
    for item in items {
        append_record(alloc, events, book, item, at)?;
    }
    Ok(())
}

/// Commits what was appended.
fn commit<S: Store>(events: &mut EventStore<S>) -> Result<(), BookFault>
    ensures durable { OnOk result (AreDurable (S.Store.view events.new.store)
        (S.Store.recovers events.new.store) (records_in (S.Store.view events.new.store).trees)) }
    ensures seen { OnOk result (IsClean (S.Store.view events.new.store)
        → (S.Store.view events.new.store).trees ≡ (S.Store.view events.old.store).trees) }
    ensures clean { doubt (S.Store.view events.old.store).is_clean
        ≤ doubt (S.Store.view events.new.store).is_clean }
    ensures first { events.new.first ≡ events.old.first }
    ensures failure { IfErr result IsWriteFailure }
{
    match events.commit() {
        Ok(()) => Ok(()),
        Err(error) => Err(BookFault::of_write(error)),
    }
}

/// Appends the first record of a new store, a header or a preface, with its kind in its row, as of this moment in milliseconds since
/// 1970, and commits it.
///
/// # Errors
///
/// `Write` and `NoMemory`: what was appended is dropped when the store is opened again.
pub(crate) fn keep_first<S: Store>(
    events: &mut EventStore<S>,
    kind: &'static str,
    first: &[u8],
    at: i64,
) -> Result<(), BookFault>
    ensures added { OnOk result (IsClean (S.Store.view events.new.store)
        → bodies_in (S.Store.view events.new.store).trees
        ≡ bodies_in (S.Store.view events.old.store).trees ++ first.now ∷ []) }
    ensures durable { OnOk result (AreDurable (S.Store.view events.new.store)
        (S.Store.recovers events.new.store) (records_in (S.Store.view events.new.store).trees)) }
    ensures clean { doubt (S.Store.view events.old.store).is_clean
        ≤ doubt (S.Store.view events.new.store).is_clean }
    ensures first { events.new.first ≡ events.old.first }
    ensures failure { IfErr result IsWriteFailure }
{
    append(events, first, &bare(kind, at))?;
    commit(events)
}

/// Appends the records of a start, by which the book has come to be what it is, as of this moment in milliseconds since 1970, and
/// commits. Where there is none it commits as well, so that what the store holds is known to be durable.
///
/// # Errors
///
/// `Write` and `NoMemory`: what was appended is dropped when the store is opened again.
pub(crate) fn keep_records<S: Store, B: BookRows>(
    alloc: Global,
    events: &mut EventStore<S>,
    book: &Book<B>,
    items: &[Record],
    at: i64,
) -> Result<(), BookFault>
    ensures added { OnOk result (IsClean (S.Store.view events.new.store)
        → bodies_in (S.Store.view events.new.store).trees
        ≡ bodies_in (S.Store.view events.old.store).trees ++ map encoding items.now) }
    ensures fits { OnOk result (AllByRecursion Fits items.now) }
    ensures durable { OnOk result (AreDurable (S.Store.view events.new.store)
        (S.Store.recovers events.new.store) (records_in (S.Store.view events.new.store).trees)) }
    ensures clean { doubt (S.Store.view events.old.store).is_clean
        ≤ doubt (S.Store.view events.new.store).is_clean }
    ensures first { events.new.first ≡ events.old.first }
    ensures failure { IfErr result IsWriteFailure }
{
    append_all(alloc, events, book, items, at)?;
    commit(events)
}
