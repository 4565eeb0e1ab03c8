ghost use Rattle.std.specs.Prelude.{◌≡◌, ◌≢◌, ◌⊎◌, ◌+◌, ◌^◌, ◌<◌, ◌≤◌, ◌++◌, false, IsTrue, IfErr, OnOk, OnErr};
ghost use Rattle.sqlite_disk.specs.Disk.{MoreFaults};
ghost use Rattle.sqlite_trees.specs.declared.store.Shape.TheVariants as table;
ghost use Rattle.sqlite_trees.specs.Tree.{Trees, rowid, put_row};
ghost use Rattle.sqlite_trees.specs.View.{IsClean, doubt, SetsTree, OnlyWrites, IsFailure, IsQuiet, HasCause, IsStorableRow, is_int};
ghost use Rattle.event_store.specs.Records.{records_in, record_row, record_of, SeesRecords, KeepsRecords, LeavesRecords, AddsRecord, AreDurable, IsAppendFailure};

use crate::NUMBERS;
use crate::columns::Columns;
use sqlite_trees::error::StoreError;
use sqlite_trees::store::{Shape, Store};
use sqlite_value::row::Row;
use sqlite_value::value::ValueRef;
use std::alloc::{AllocError, Global};

/// Records in order, in the table that is tree 0 of a store. Those of the last commit that answered `Ok` are durable.
#[derive(Drop)]
pub struct EventStore<S: Store> {
    /// The store of rows.
    pub store: S,
    /// The row that is written next; kept so that an append allocates only to grow it.
    pub(crate) row: Row,
    /// The number of the first record.
    pub first: u64,
    /// The number of the next record.
    pub next: u64,
    /// The number after that of the last committed record.
    pub committed: u64,
    ghost sees: { SeesRecords first (S.Store.view store) next },
    ghost keeps: { KeepsRecords first (S.Store.view store) committed },
    ghost leaves: { LeavesRecords first (S.Store.view store) (S.Store.recovers store) },
}

fn fill(row: &mut Row, number: u64, body: &[u8], columns: &Columns<'_>) -> Result<(), AllocError>
    requires { number < 2 ^ 62 }
    ensures { OnOk result (row.new ≡ record_row number (record_of body.now columns.now)) }
{
    row.clear();
    row.push(ValueRef::Int(number as i64))?;
    row.push(ValueRef::Null)?;
    row.push(ValueRef::Blob(body))?;
    row.push(ValueRef::Int(columns.at))?;
    row.push(ValueRef::Text(columns.peer.as_bytes()))?;
    row.push(ValueRef::Text(columns.kind.as_bytes()))?;
    row.push(ValueRef::Text(columns.channel.as_bytes()))?;
    row.push(ValueRef::Int(columns.number))?;
    row.push(ValueRef::Text(columns.control_id))?;
    row.push(ValueRef::Text(columns.destination.as_bytes()))?;
    row.push(ValueRef::Text(columns.outcome.as_bytes()))
}

fn put<S: Store>(store: &mut S, row: &Row) -> Result<(), StoreError>
    requires keyed { IsTrue (is_int (rowid row.now)) }
    ensures ok { OnOk result (IsClean (S.Store.view store.new)
        → SetsTree (S.Store.view store.old) (S.Store.view store.new) 0 (put_row row.now)) }
    ensures frame { OnOk result (IsClean (S.Store.view store.new)
        → OnlyWrites (S.Store.view store.old) (S.Store.view store.new)) }
    ensures err { IfErr result (IsFailure (S.Store.view store.old) (S.Store.view store.new)) }
    ensures cause { IsClean (S.Store.view store.new)
        → IfErr result (HasCause (S.Store.view store.old)
        (MoreFaults (S.Store.faults store.old) (S.Store.faults store.new))
        ((¬ IsStorableRow ((S.Store.view store.old).reals 0) row.now)
        ⊎ ((S.Store.view store.old).shape 0 ≢ table.Table))) }
    ensures quiet { IsQuiet S.Store.view S.Store.faults S.Store.recovers S.Store.is_shielded
        store.old store.new }
{
    if store.shape(0) != Shape::Table {
        return Err(StoreError::Unstorable);
    }
    store.put(0, row)
}

impl<S: Store> EventStore<S> {
    /// Adds a record at the end of the transaction, in a row of its own. It is not durable before a commit.
    ///
    /// # Errors
    ///
    /// The transaction may then be broken, so that only a rollback by `commit` or `open` mends it. The errors are those
    /// of `StoreError`; a record whose row takes over a billion bytes is `Unstorable`, and the 2^62nd number is `Full`.
    pub fn append(&mut self, body: &[u8], columns: &Columns<'_>) -> Result<(), StoreError>
        ensures added { OnOk result
            (AddsRecord (S.Store.view self.old.store) (S.Store.view self.new.store)
            (record_of body.now columns.now)) }
        // A store that is shut takes no record.
        ensures open { OnOk result (IsClean (S.Store.view self.new.store)
            → IsTrue (S.Store.view self.old.store).is_open) }
        ensures committed { IsTrue (S.Store.view self.new.store).is_open
            → (S.Store.view self.new.store).committed ≡ (S.Store.view self.old.store).committed }
        // A crash leaves nothing that it could not leave before.
        ensures crash { (db : Trees) → S.Store.recovers self.new.store db
            → S.Store.recovers self.old.store db }
        ensures first { self.new.first ≡ self.old.first }
        // A store that is shut stays shut.
        ensures shut { IsTrue (S.Store.view self.new.store).is_open
            → IsTrue (S.Store.view self.old.store).is_open }
        ensures clean { doubt (S.Store.view self.old.store).is_clean
            ≤ doubt (S.Store.view self.new.store).is_clean }
        ensures cause { IsClean (S.Store.view self.new.store)
            → IfErr result (IsAppendFailure (S.Store.view self.old.store)
            (MoreFaults (S.Store.faults self.old.store) (S.Store.faults self.new.store))
            self.old.next (record_of body.now columns.now)) }
    {
        if self.next >= NUMBERS {
            return Err(StoreError::Full);
        }
        fill(&mut self.row, self.next, body, columns)?;
        put(&mut self.store, &self.row)?;
        self.next += 1;
        Ok(())
    }

    /// Commits the transaction. After `Ok` its records are durable: each crash from then on leaves them all.
    ///
    /// # Errors
    ///
    /// The transaction is rolled back: what was appended since the last commit that answered `Ok` is dropped. Where a
    /// sync or a write has failed, the store may be shut, and only another open of the file goes on.
    pub fn commit(&mut self) -> Result<(), StoreError>
        ensures durable { OnOk result (AreDurable (S.Store.view self.new.store)
            (S.Store.recovers self.new.store) (records_in (S.Store.view self.old.store).trees)) }
        // A store that is shut commits nothing.
        ensures open { OnOk result (IsClean (S.Store.view self.new.store)
            → IsTrue (S.Store.view self.old.store).is_open) }
        ensures seen { OnOk result (IsClean (S.Store.view self.new.store)
            → (S.Store.view self.new.store).trees ≡ (S.Store.view self.old.store).trees) }
        ensures undone { OnErr result (IsTrue (S.Store.view self.new.store).is_open
            → (S.Store.view self.new.store).trees ≡ (S.Store.view self.old.store).committed) }
        ensures kept { OnErr result (IsTrue (S.Store.view self.new.store).is_open
            → (S.Store.view self.new.store).committed ≡ (S.Store.view self.old.store).committed) }
        // A crash at any moment of the call leaves what it could leave before, or all the records of
        // the transaction.
        ensures crash { (db : Trees) → S.Store.recovers self.new.store db
            → (records_in db ≡ records_in (S.Store.view self.old.store).trees)
            ⊎ S.Store.recovers self.old.store db }
        ensures first { self.new.first ≡ self.old.first }
        // A store that is shut stays shut.
        ensures shut { IsTrue (S.Store.view self.new.store).is_open
            → IsTrue (S.Store.view self.old.store).is_open }
        ensures clean { doubt (S.Store.view self.old.store).is_clean
            ≤ doubt (S.Store.view self.new.store).is_clean }
        ensures cause { IsClean (S.Store.view self.new.store)
            → IfErr result (HasCause (S.Store.view self.old.store)
            (MoreFaults (S.Store.faults self.old.store) (S.Store.faults self.new.store)) ⊥) }
        ensures stays_open { IsClean (S.Store.view self.new.store)
            → IsTrue (S.Store.view self.old.store).is_open
            → IsTrue (S.Store.view self.new.store).is_open
            ⊎ MoreFaults (S.Store.faults self.old.store) (S.Store.faults self.new.store) }
    {
        match self.store.commit() {
            Ok(()) => {
                self.committed = self.next;
                Ok(())
            }
            Err(error) => {
                self.next = self.committed;
                Err(error)
            }
        }
    }

    /// Drops what was appended since the last commit that returned `Ok`, and mends a transaction that is broken. It
    /// does nothing for a store that is shut.
    pub fn rollback(&mut self)
        ensures undone { IsTrue (S.Store.view self.new.store).is_open
            → (S.Store.view self.new.store).trees ≡ (S.Store.view self.old.store).committed }
        ensures committed { IsTrue (S.Store.view self.new.store).is_open
            → (S.Store.view self.new.store).committed ≡ (S.Store.view self.old.store).committed }
        ensures mended { IsTrue (S.Store.view self.new.store).is_open
            → (S.Store.view self.new.store).is_broken ≡ false }
        // A crash leaves nothing that it could not leave before.
        ensures crash { (db : Trees) → S.Store.recovers self.new.store db
            → S.Store.recovers self.old.store db }
        ensures first { self.new.first ≡ self.old.first }
        // A store that is shut stays shut.
        ensures shut { IsTrue (S.Store.view self.new.store).is_open
            → IsTrue (S.Store.view self.old.store).is_open }
        ensures clean { doubt (S.Store.view self.old.store).is_clean
            ≤ doubt (S.Store.view self.new.store).is_clean }
        ensures stays_open { IsClean (S.Store.view self.new.store)
            → IsTrue (S.Store.view self.old.store).is_open
            → IsTrue (S.Store.view self.new.store).is_open
            ⊎ MoreFaults (S.Store.faults self.old.store) (S.Store.faults self.new.store) }
    {
        self.store.rollback();
        self.next = self.committed;
    }
}
