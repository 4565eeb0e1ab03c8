ghost use Rattle.std.specs.Prelude.{◌≡◌, ◌≢◌, ◌≤◌, map, IfOk, IfErr, IsTrue};
ghost use Rattle.sqlite_disk.specs.Disk.{MoreFaults};
ghost use Rattle.sqlite_trees.specs.Tree.{Trees};
ghost use Rattle.sqlite_trees.specs.View.{IsClean, doubt};
ghost use Rattle.event_store.specs.Records.{records_in, contents_in, contents_of, HoldsRecords, IsOpenFailure};

use crate::columns::StoredRecord;
use crate::read::read;
use crate::records::EventStore;
use sqlite_trees::error::StoreError;
use sqlite_trees::store::{Reopen, Store};
use sqlite_value::row::Row;
use std::alloc::Global;
use thiserror::Error;

/// Why a store is not opened.
#[derive(Clone, Copy, Debug, PartialEq, Eq, Error)]
pub enum OpenError {
    /// The store failed; or its tree 0 is no table, or a number of a record would be 2^62 or more.
    #[error(transparent)]
    Store(StoreError),
    /// The table holds something that is no record, or a record of another number than is due.
    #[error("the table does not hold records alone, numbered in order with no gap")]
    NotRecords,
}

/// A store that was opened, with the records that it held.
pub type Opened<S> = (EventStore<S>, Vec<StoredRecord>);

impl<S: Store> EventStore<S> {
    /// Drops what is not committed, and reads the records of the last commit, the first of which has the number `first`.
    ///
    /// # Errors
    ///
    /// The store is given back, with what failed. [`OpenError::NotRecords`] is returned only where the table holds no
    /// list of records from `first` on.
    pub fn open(alloc: Global, first: u64, mut store: S) -> Result<Opened<S>, (OpenError, S)>
        ensures exact { IfOk result (λ r. IsClean (S.Store.view r.0.store)
            → map contents_of r.1.items ≡ contents_in (S.Store.view store).committed) }
        ensures now { IfOk result (λ r. IsClean (S.Store.view r.0.store)
            → records_in (S.Store.view r.0.store).trees
            ≡ records_in (S.Store.view store).committed) }
        ensures read { IfOk result (λ r. IsClean (S.Store.view r.0.store)
            → map contents_of r.1.items ≡ contents_in (S.Store.view r.0.store).trees) }
        ensures committed { IfOk result (λ r. IsClean (S.Store.view r.0.store)
            → (S.Store.view r.0.store).committed ≡ (S.Store.view store).committed) }
        ensures open { IfOk result (λ r. IsClean (S.Store.view r.0.store)
            → IsTrue (S.Store.view r.0.store).is_open) }
        ensures first { IfOk result (λ r. r.0.first ≡ first) }
        // Each outcome of a crash is as it was, and there is no other.
        ensures crash { IfOk result (λ r. (db : Trees) → S.Store.recovers r.0.store db
            → S.Store.recovers store db) }
        ensures refused { IfErr result (λ e. IsClean (S.Store.view e.1) → e.0 ≡ OpenError.NotRecords
            → HoldsRecords first (S.Store.view store).committed → ⊥) }
        ensures cause { IfErr result (λ e. IsClean (S.Store.view e.1)
            → IsOpenFailure first (S.Store.view store)
            (MoreFaults (S.Store.faults store) (S.Store.faults e.1)) e.0) }
        ensures clean { IfOk result (λ r. doubt (S.Store.view store).is_clean
            ≤ doubt (S.Store.view r.0.store).is_clean) }
        ensures clean_if_refused { IfErr result (λ e. doubt (S.Store.view store).is_clean
            ≤ doubt (S.Store.view e.1).is_clean) }
    {
        store.rollback();
        let mut row = Row::new(alloc);
        match read(alloc, first, &mut store, &mut row) {
            Ok(Some(all)) => {
                let next = first + all.len() as u64;
                let events = EventStore {
                    store,
                    row,
                    first,
                    next,
                    committed: next,
                };
                Ok((events, all))
            }
            Ok(None) => Err((OpenError::NotRecords, store)),
            Err(error) => Err((OpenError::Store(error), store)),
        }
    }
}

impl<S: Store + Drop> EventStore<S> {
    /// Gives the store back. What is not committed is in its transaction still.
    pub fn into_store(self) -> S
        ensures { result ≡ self.store }
    {
        self.store
    }
}

impl<S: Reopen> EventStore<S> {
    /// A crash of the disk under the store, and the open after it: it reads the records that the crash left.
    ///
    /// # Errors
    ///
    /// As [`EventStore::open`], but never [`OpenError::NotRecords`].
    pub fn crash_and_reopen(self, alloc: Global) -> Result<Opened<S>, (OpenError, S)>
        ensures found { IfOk result (λ r. IsClean (S.Store.view r.0.store)
            → (db : Trees) × S.Store.recovers self.store db
            × (map contents_of r.1.items ≡ contents_in db)) }
        ensures clean { IfOk result (λ r. doubt (S.Store.view self.store).is_clean
            ≤ doubt (S.Store.view r.0.store).is_clean) }
        ensures never_refused { IfErr result (λ e. IsClean (S.Store.view e.1)
            → e.0 ≢ OpenError.NotRecords) }
    {
        let EventStore {
            mut store,
            row: _,
            first,
            next: _,
            committed: _,
        } = self;
        match store.crash_and_reopen() {
            Ok(()) => match EventStore::open(alloc, first, store) {
                Ok(opened) => Ok(opened),
                Err(refused) => Err(refused),
            },
            Err(error) => Err((OpenError::Store(error), store)),
        }
    }
}
