//! The journal, and its step.

ghost use Rattle.std.specs.Prelude.{◌≡◌, ◌+◌, false, [], Err, IfErr, IfOk, IsTrue, List, OnErr, OnOk, length};
ghost use Rattle.sqlite_trees.specs.View.{IsClean};
ghost use Rattle.event_store.specs.Records.{AreDurable, records_in};
ghost use Rattle.book_lock.specs.declared.log_entry.LogEntry.{LogEntry};
ghost use Rattle.book_lock.specs.Durable.{changes_of};
ghost use Rattle.book_lock.specs.Log.{Looks};
ghost use Rattle.book_journal.specs.inner.Held.{AreHeld};
ghost use Rattle.book_journal.specs.inner.Order.{HasCopied, is_store};

use crate::fault::JournalError;
use crate::figures::StoreFigures;
use crate::held::{Held, HeldChanges};
use crate::write::{rows_of, write_all};
use book_core::BookRows;
use book_lock::{Copied, CopyRefusal, Desk, JournalReader, Shared, Sharing};
use event_store::EventStore;
use plan_text::Plan;
use sqlite_trees::error::StoreError;
use sqlite_trees::store::Store;
use std::alloc::Global;
use std::marker::{Brand, Model};
use std::sync::atomic::{AtomicBool, Ordering};
use std::sync::{Arc, Wait};
use std::thread;
use std::time::{Clock, Duration, Instant};

/// How long a journal waits where there was nothing to write and no thread waits for it, in milliseconds: a settlement that nobody
/// waits for is written within this time.
const IDLE_MILLIS: u64 = 20;

/// How long a journal waits where memory was refused, in milliseconds.
const PAUSE_MILLIS: u64 = 2;

/// How long a journal waits where the disk had no room, in milliseconds.
const ROOM_MILLIS: u64 = 1_000;

/// How a book is shared that is written to a store.
pub trait Journaling: Sharing {
    ghost use Rattle.std.specs.Prelude.{List};
    ghost use Rattle.event_store.specs.Records.{Record};

    /// The rows that the store had when the book was shared: that of the header or the preface, and those from which the book
    /// was recovered.
    ghost before: { List Record };
}

impl Journaling for Brand {
    ghost use Rattle.std.specs.Prelude.{[]};

    ghost before = { [] };
}

/// The journal of a shared book: its reader, and the store to which it writes. Contracts see its seat at the book, how many
/// changes it has copied and not yet written, whether its store has failed, and the store.
#[derive(Drop)]
pub struct Journal<A: Journaling, S: Store> {
    reader: JournalReader<A>,
    store: EventStore<S>,
    /// The changes that were copied and are not written.
    unwritten: Vec<Copied>,
    /// The plan that is in force before the first change that is not written.
    plan: Arc<Plan>,
    /// What failed, once the store has.
    failure: Option<StoreError>,
    /// Whether the last step found no room on the disk.
    found_no_room: bool,
}

impl<A: Journaling, S: Store> Model for Journal<A, S> {
    ghost use Rattle.std.specs.Prelude.{is_some, length};
    ghost use Rattle.book_journal.specs.inner.Order.{IsInOrder, JournalView, journal_code};

    ghost Value = { JournalView S };

    ghost coded = { journal_code S.code };

    ghost view = { λ j. record {
      desk = j.reader;
      unwritten = length j.unwritten.items;
      has_failed = is_some j.failure;
      store = j.store.store;
    } };

    ghost invariant = { λ j. IsInOrder A.opening A.before (S.Store.view j.store.store)
        (S.Store.recovers j.store.store) j.reader.seat.seen j.unwritten.items (is_some j.failure)
        j.found_no_room };
}

/// Publishes that all that the reader has copied is durable. The store holds just that.
fn publish<A: Journaling, B: BookRows, S: Store, N: HeldChanges, H: Wait>(
    rt: &H,
    shared: &Shared<A, B>,
    reader: &mut JournalReader<A>,
    store: &EventStore<S>,
)
    requires which { N.changes ≡ changes_of reader.old.seat.seen }
    requires held { AreHeld (S.Store.view store.now.store) (S.Store.recovers store.now.store)
        A.before (changes_of reader.old.seat.seen) }
    requires committed { A.committed (changes_of reader.old.seat.seen) }
    ensures { reader.new ≡ reader.old }
{
    shared.publish_durable(rt, reader, &Held::<A, S, N>::of(store));
}

/// Copies the changes that the reader has not copied, unless some that it has copied are not written.
fn copy_more<A: Journaling, B: BookRows, H: Wait>(
    rt: &H,
    alloc: Global,
    shared: &Shared<A, B>,
    reader: &mut JournalReader<A>,
    unwritten: &mut Vec<Copied>,
) -> Result<(), JournalError>
    ensures copied { OnOk result (HasCopied A.opening reader.old.seat reader.new.seat
        unwritten.old.items unwritten.new.items) }
    ensures made { reader.new.made ≡ reader.old.made }
    ensures refused { IfErr result (λ e. is_store e ≡ false) }
    ensures unchanged { OnErr result (reader.new ≡ reader.old) }
    ensures kept { OnErr result (unwritten.new.items ≡ unwritten.old.items) }
{
    if !unwritten.is_empty() {
        return Ok(());
    }
    match shared.copy_entries(rt, alloc, reader) {
        Ok(copies) => {
            *unwritten = copies;
            Ok(())
        }
        Err(CopyRefusal::NoMemory) => Err(JournalError::NoMemory),
        Err(CopyRefusal::Pruned) => Err(JournalError::Pruned),
    }
}

/// The moment, in milliseconds since 1970; 0 where the clock can't be read.
fn millis_now<H: Clock>(rt: &H) -> i64 {
    match rt.since_1970() {
        Ok(since) => i64::try_from(since.as_millis()).unwrap_or(0),
        Err(_) => 0,
    }
}

impl<A: Journaling, S: Store> Journal<A, S> {
    /// The journal of a book that was shared just now, with a plan in force: its reader has copied nothing, and the store has
    /// the rows from which the book came, committed, and nothing else.
    pub fn new(
        alloc: Global,
        reader: JournalReader<A>,
        store: EventStore<S>,
        plan: Arc<Plan>,
    ) -> Journal<A, S>
        requires unread { reader.seat.seen ≡ [] }
        requires durable { AreDurable (S.Store.view store.store)
            (S.Store.recovers store.store) A.before }
        requires sees { IsClean (S.Store.view store.store)
            → records_in (S.Store.view store.store).trees ≡ A.before }
        ensures desk { result.desk ≡ reader }
        ensures store { result.store ≡ store.store }
        ensures unwritten { result.unwritten ≡ 0 }
        ensures sound { result.has_failed ≡ false }
    {
        Journal {
            reader,
            store,
            unwritten: Vec::new(alloc),
            plan,
            failure: None,
            found_no_room: false,
        }
    }

    /// Copies what was booked since the last step, writes it to the store, and publishes that it is durable. Returns how many
    /// changes were written; where there was none, nothing is written. The store may take long, and the book is not locked
    /// meanwhile.
    ///
    /// # Errors
    ///
    /// `NoMemory` before anything is written, and `NoRoom` where the disk has no room and what was written is dropped: the step
    /// may be made again then. `Pruned` where changes are lost; and `Store` where the store has failed, in this step or in an
    /// earlier one. Nothing is published.
    pub fn step<B: BookRows, H: Wait + Clock>(
        &mut self,
        rt: &H,
        alloc: Global,
        shared: &Shared<A, B>,
    ) -> Result<usize, JournalError>
        // What a store holds counts as committed.
        requires committed { (store : S) (changes : List LogEntry)
            → AreHeld (S.Store.view store) (S.Store.recovers store) A.before changes
            → A.committed changes }

        // The store holds all that the journal has seen of the book.
        ensures held { OnOk result (AreHeld (S.Store.view self.new.store)
            (S.Store.recovers self.new.store) A.before (changes_of self.new.desk.seat.seen)) }
        ensures written { OnOk result (self.new.unwritten ≡ 0) }
        ensures count { IfOk result (λ count.
            length (changes_of self.new.desk.seat.seen) + self.old.unwritten
            ≡ length (changes_of self.old.desk.seat.seen) + count) }

        // It has seen more of the book, and booked nothing.
        ensures looks { Looks A.opening self.old.desk.seat self.new.desk.seat }
        ensures made { self.new.desk.made ≡ self.old.desk.made }

        // Where memory is refused, nothing is written, and the step may be made again. A store that failed is used no more.
        ensures refused { result ≡ Err JournalError.NoMemory
            → (self.new.store ≡ self.old.store) × (self.new.has_failed ≡ self.old.has_failed) }
        ensures no_room { result ≡ Err JournalError.NoRoom → self.new.has_failed ≡ false }
        ensures pruned { result ≡ Err JournalError.Pruned → self.new ≡ self.old }
        ensures failed { IfErr result (λ e. IsTrue (is_store e) → IsTrue self.new.has_failed) }
        ensures stays { IsTrue self.old.has_failed → self.new ≡ self.old }
    {
        if let Some(error) = self.failure {
            return Err(JournalError::Store(error));
        }
        copy_more(rt, alloc, shared, &mut self.reader, &mut self.unwritten)?;
        if self.unwritten.is_empty() {
            return Ok(0);
        }
        let batch = rows_of(alloc, self.unwritten.as_slice(), &self.plan)?;
        let at = millis_now(rt);
        match write_all(
            &mut self.store,
            &mut self.unwritten,
            &mut self.plan,
            batch,
            at,
        ) {
            Ok(count) => {
                self.found_no_room = false;
                publish::<A, B, S, Brand, H>(rt, shared, &mut self.reader, &self.store);
                Ok(count)
            }
            Err(StoreError::Full) => {
                self.found_no_room = true;
                Err(JournalError::NoRoom)
            }
            Err(error) => {
                self.failure = Some(error);
                Err(JournalError::Store(error))
            }
        }
    }

    /// Makes steps until it is noted that nothing more will be booked, and all that was booked is written. Where a step found
    /// nothing to write, it waits until a thread waits for the journal, or for 20 ms; where memory was refused, for 2 ms; and
    /// where the disk had no room, for a second. Where no later step is made, it notes that the journal has failed, which wakes
    /// the threads that wait for it. What it has written it notes in `figures`.
    ///
    /// # Errors
    ///
    /// That of the last step: `NoMemory` only once nothing more will be booked, and `NoRoom` only then or where `figures` says
    /// that the service ends.
    pub fn run<B: BookRows, H: Wait + Clock>(
        &mut self,
        rt: &H,
        alloc: Global,
        shared: &Shared<A, B>,
        ended: &AtomicBool,
        figures: &StoreFigures,
    ) -> Result<(), JournalError>
        requires committed { (store : S) (changes : List LogEntry)
            → AreHeld (S.Store.view store) (S.Store.recovers store) A.before changes
            → A.committed changes }
        ensures held { OnOk result (AreHeld (S.Store.view self.new.store)
            (S.Store.recovers self.new.store) A.before (changes_of self.new.desk.seat.seen)) }
        ensures written { OnOk result (self.new.unwritten ≡ 0) }
        ensures made { self.new.desk.made ≡ self.old.desk.made }
    {
        'steps: for _ in rt.forever() {
            let is_last = ended.load(Ordering::SeqCst);
            figures.note_step();
            let began = Instant::now(rt).ok();
            match self.step(rt, alloc, shared) {
                Ok(0) if is_last => return Ok(()),
                Ok(0) => shared.wait_wanted(rt, Duration::from_millis(IDLE_MILLIS)),
                Ok(changes) => figures.note_commit(rt, changes, began),
                Err(JournalError::NoMemory) if !is_last => {
                    thread::sleep(rt, Duration::from_millis(PAUSE_MILLIS));
                }
                Err(JournalError::NoRoom) if !is_last && !figures.gives_up() => {
                    figures.note_room(false);
                    thread::sleep(rt, Duration::from_millis(ROOM_MILLIS));
                }
                Err(error) => {
                    shared.fail_journal(rt);
                    return Err(error);
                }
            }
        }
        Err(JournalError::NoMemory)
    }

    /// The reader's desk, which is handed in when the book is closed, and the store.
    pub fn into_parts(self) -> (Desk<A>, EventStore<S>)
        ensures desk { result.0 ≡ self.desk }
        ensures store { result.1.store ≡ self.store }
        ensures held { self.has_failed ≡ false → self.unwritten ≡ 0
            → AreHeld (S.Store.view self.store) (S.Store.recovers self.store)
            A.before (changes_of self.desk.seat.seen) }
    {
        let Journal { reader, store, .. } = self;
        (reader.into_desk(), store)
    }
}
