//! What is booked is written, published and recovered.

ghost use Rattle.std.specs.Prelude.{◌≡◌, [], IfSome, List, length, map};
ghost use Rattle.sqlite_trees.specs.View.{IsClean};
ghost use Rattle.event_log.specs.History.{next_place, plan_in_force};
ghost use Rattle.event_log.specs.Counting.{counted};
ghost use Rattle.event_store.specs.Records.{AreDurable, records_in};
ghost use Rattle.book_lock.specs.declared.log_entry.LogEntry.{LogEntry as Change};
ghost use Rattle.book_lock.specs.inner.Log.{new_seats};
ghost use Rattle.book_journal.specs.inner.Held.{AreHeld};

use crate::stage::{Rows, begun, bring, new_file, store_in_memory};
use book_core::Book;
use book_journal::{Journal, Journaling};
use book_lock::{
    Closed, Desk, JournalReader, LogEntry, Opened, Shared, Station, TakeDurableRefusal,
};
use book_recovery::{NewFile, recover};
use event_store::{EventStore, StoredRecord};
use ghost_log::BlankLog;
use hl7_head::Moment;
use plan_text::Plan;
use sqlite_trees::store::Store;
use std::alloc::Global;
use std::hash::RandomState;
use std::marker::Brand;
use std::sync::{Arc, Wait};
use std::test::Fail;
use std::time::Clock;

/// A book that was closed, the store of its journal, and whether each call on the way answered as it is to.
#[derive(Drop)]
struct Day<S: Store> {
    is_right: bool,
    events: EventStore<S>,
    closed: Closed<Rows>,
}

/// Whether the first message is not taken yet.
fn is_held_back<A: Journaling, H: Wait>(
    rt: &H,
    shared: &Shared<A, Rows>,
    station: &mut Station<A>,
) -> bool {
    matches!(
        shared.take_durable(rt, station, 0, Moment::epoch()),
        Err(TakeDurableRefusal::NotDurable)
    )
}

/// Whether a step writes this many changes.
fn writes<A: Journaling, S: Store, H: Wait + Clock>(
    rt: &H,
    alloc: Global,
    shared: &Shared<A, Rows>,
    journal: &mut Journal<A, S>,
    changes: usize,
) -> bool
    requires committed { (store : S) (changes : List Change)
        → AreHeld (S.Store.view store) (S.Store.recovers store) A.before changes → A.committed changes }
{
    match journal.step(rt, alloc, shared) {
        Ok(count) => count == changes,
        Err(_) => false,
    }
}

/// Whether a message that is booked is taken once it is written, and not before.
fn is_kept<A: Journaling, S: Store, H: Wait + Clock>(
    rt: &H,
    alloc: Global,
    shared: &Shared<A, Rows>,
    desk: &mut Desk<A>,
    station: &mut Station<A>,
    journal: &mut Journal<A, S>,
) -> bool
    requires committed { (store : S) (changes : List Change)
        → AreHeld (S.Store.view store) (S.Store.recovers store) A.before changes → A.committed changes }
{
    let idle = writes(rt, alloc, shared, journal, 0);
    let booked = bring(rt, alloc, shared, desk, 7).is_some();
    let held_back = is_held_back(rt, shared, station);
    let written = writes(rt, alloc, shared, journal, 1);
    let durable = shared.wait_durable(rt, desk).is_ok();
    let taken = shared.take_durable(rt, station, 0, Moment::epoch()).is_ok();
    let written_again = writes(rt, alloc, shared, journal, 1);
    idle && booked && held_back && written && durable && taken && written_again
}

/// The desks and the stations of a book, with the journal's own desk apart. None where one is missing.
fn own_desk<A: Journaling>(desks: &mut Vec<Desk<A>>) -> Option<Desk<A>>
    requires { map (λ d. d.seat) desks.old.items ≡ new_seats 0 2 }
    ensures { IfSome result (λ d. d.seat.seen ≡ []) }
{
    desks.pop()
}

/// The journal of a book that was shared among new desks just now, at the last of these. None where there is no desk.
fn journal_of<A: Journaling, S: Store + Drop>(
    alloc: Global,
    desks: &mut Vec<Desk<A>>,
    next: usize,
    prunings: u32,
    plan: Arc<Plan>,
    events: EventStore<S>,
) -> Option<Journal<A, S>>
    requires seats { map (λ d. d.seat) desks.old.items ≡ new_seats 0 2 }
    requires next { next ≡ next_place A.opening }
    requires prunings { prunings ≡ A.opening.opening.prunings }
    requires durable { AreDurable (S.Store.view events.store) (S.Store.recovers events.store) A.before }
    requires sees { IsClean (S.Store.view events.store)
        → records_in (S.Store.view events.store).trees ≡ A.before }
{
    let reader = JournalReader::new(own_desk(desks)?, next, prunings);
    Some(Journal::new(alloc, reader, events, plan))
}

/// The day of a book that is closed with its desks, that of its journal and its stations. None where the close is refused.
fn day_of<A: Journaling, S: Store + Drop>(
    is_right: bool,
    shared: Shared<A, Rows>,
    mut desks: Vec<Desk<A>>,
    stations: Vec<Station<A>>,
    journal: Journal<A, S>,
) -> Option<Day<S>> {
    let (own, events) = journal.into_parts();
    desks.push(own).ok()?;
    match shared.close(desks, stations) {
        Ok(closed) => Some(Day {
            is_right,
            events,
            closed,
        }),
        Err(_) => None,
    }
}

/// Shares a book between a desk and a station, with a journal, and closes it once a message was taken.
fn journaled<A: Journaling, S: Store + Drop, H: Wait + Clock>(
    rt: &H,
    alloc: Global,
    book: Book<Rows>,
    log: BlankLog<LogEntry>,
    events: EventStore<S>,
) -> Option<Day<S>>
    requires opening { book ≡ A.opening }
    requires log { log.table.shared.table_id ≡ A.table }
    requires counts { counted book ≡ A.counts }
    requires first { next_place book ≡ A.first }
    requires channels { length (plan_in_force book).channels ≡ A.channels }
    requires seats { (A.desks ≡ 2) × (A.stations ≡ 1) }
    requires durable { AreDurable (S.Store.view events.store) (S.Store.recovers events.store) A.before }
    requires sees { IsClean (S.Store.view events.store)
        → records_in (S.Store.view events.store).trees ≡ A.before }
    requires committed { (store : S) (changes : List Change)
        → AreHeld (S.Store.view store) (S.Store.recovers store) A.before changes → A.committed changes }
{
    let (next, prunings) = (book.len(), book.prunings());
    let plan = Arc::try_clone(book.plan()).ok()?;
    let Ok(
        Opened {
            shared,
            mut desks,
            mut stations,
        },
    ) = Shared::<A, Rows>::new(alloc, book, 2, 1, log)
    else {
        return None;
    };
    let mut journal = journal_of(alloc, &mut desks, next, prunings, plan, events)?;
    let is_right = match (desks.last_mut(), stations.last_mut()) {
        (Some(desk), Some(station)) => is_kept(rt, alloc, &shared, desk, station, &mut journal),
        _ => false,
    };
    day_of(is_right, shared, desks, stations, journal)
}

/// A day of a new file's book, with a journal over a store that its header was written to.
fn kept_for_a_day<S: Store + Drop, H: Wait + Clock>(
    rt: &H,
    alloc: Global,
    file: NewFile<Rows>,
    events: EventStore<S>,
) -> Result<Day<S>, Fail> {
    let NewFile { header, book } = file;
    let events = begun(events, header.as_slice())?;
    let log = BlankLog::new(alloc)?;
    match journaled::<Brand, S, H>(rt, alloc, book, log, events) {
        Some(day) => Ok(day),
        None => Err("no day".into()),
    }
}

/// What a store holds.
fn held<S: Store + Drop>(alloc: Global, events: EventStore<S>) -> Result<Vec<StoredRecord>, Fail> {
    match EventStore::open(alloc, 1, events.into_store()) {
        Ok((_, rows)) => Ok(rows),
        Err(_) => Err("not read".into()),
    }
}

/// Whether a book with two entries is recovered from three rows.
fn is_recovered(rt: &HostRuntime, rows: &[StoredRecord]) -> Result<bool, Fail> {
    match recover::<Rows>(rt.alloc(), rows, RandomState::new(rt)?) {
        Ok(recovered) => Ok(
            rows.len() == 3
                && recovered.book.len() == 2
                && recovered.records == 2
                && recovered.last_connection == Some(7),
        ),
        Err(_) => Err("not recovered".into()),
    }
}

/// Whether each call of a day answered as it is to and the closed book has two entries, and the rows of its store.
fn rows_of<S: Store + Drop>(alloc: Global, day: Day<S>) -> Result<(bool, Vec<StoredRecord>), Fail> {
    let Day {
        is_right,
        events,
        closed,
    } = day;
    let has_two = closed.book().len() == 2;
    Ok((is_right && has_two, held(alloc, events)?))
}

/// What is booked is durable once it is written, a message is taken only then, and the store has what the book had.
#[test]
fn what_is_written_is_durable(rt: HostRuntime) -> Result<(), Fail> {
    let alloc = rt.alloc();
    let day = kept_for_a_day(&rt, alloc, new_file(&rt)?, store_in_memory(alloc)?)?;
    let (is_right, rows) = rows_of(alloc, day)?;
    let recovered = is_recovered(&rt, &rows)?;
    assert!(rt; is_right && recovered);
    Ok(())
}
