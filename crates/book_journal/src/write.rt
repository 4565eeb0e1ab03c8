//! Changes are written as rows, and committed.

ghost use Rattle.std.specs.Prelude.{◌≡◌, ◌≤◌, [], ◌∷◌, IfOk, IsTrue, OnErr, OnOk, length, map};
ghost use Rattle.sqlite_trees.specs.Tree.{Trees};
ghost use Rattle.sqlite_trees.specs.View.{IsClean, doubt};
ghost use Rattle.event_store.specs.Records.{records_in};
ghost use Rattle.book_lock.specs.Journal.{change_copied};
ghost use Rattle.book_journal.specs.inner.Held.{HasRows};
ghost use Rattle.book_journal.specs.inner.Rows.{Adds, AreReady, IsRolledBack};

use crate::row::{Row, row_of};
use book_lock::Copied;
use event_store::EventStore;
use plan_text::Plan;
use sqlite_trees::error::StoreError;
use sqlite_trees::store::Store;
use std::alloc::{AllocError, Global};
use std::sync::Arc;

/// The rows of changes, and the plan that is in force after them.
#[derive(Drop)]
pub(crate) struct Batch {
    pub rows: Vec<Row>,
    pub plan: Arc<Plan>,
}

/// The rows of changes, before which a plan is in force.
///
/// # Errors
///
/// Where memory is refused.
pub(crate) fn rows_of(
    alloc: Global,
    changes: &[Copied],
    plan: &Arc<Plan>,
) -> Result<Batch, AllocError>
    ensures { IfOk result (λ batch. AreReady batch.rows.items (map change_copied changes.now)) }
{
    let mut rows = Vec::new(alloc);
    let mut plan = Arc::try_clone(plan)?;
    for change in changes {
        let row = row_of(alloc, change, &plan)?;
        rows.push(row)?;
        if let Copied::Deploy { plan: deployed } = change {
            plan = Arc::try_clone(deployed.plan())?;
        }
    }
    Ok(Batch { rows, plan })
}

/// Adds a row at the end of the transaction.
fn append<S: Store>(store: &mut EventStore<S>, row: &Row, at: i64) -> Result<(), StoreError>
    ensures added { OnOk result (IsClean (S.Store.view store.new.store)
        → Adds (records_in (S.Store.view store.old.store).trees) (row.now ∷ [])
        (records_in (S.Store.view store.new.store).trees)) }
    ensures clean { doubt (S.Store.view store.old.store).is_clean
        ≤ doubt (S.Store.view store.new.store).is_clean }
    ensures committed { IsTrue (S.Store.view store.new.store).is_open
        → (S.Store.view store.new.store).committed ≡ (S.Store.view store.old.store).committed }
    ensures shut { IsTrue (S.Store.view store.new.store).is_open
        → IsTrue (S.Store.view store.old.store).is_open }
{
    store.append(row.body.as_slice(), &row.columns(at))?;
    Ok(())
}

/// Adds rows at the end of the transaction, in order.
fn append_all<S: Store>(store: &mut EventStore<S>, rows: &[Row], at: i64) -> Result<(), StoreError>
    ensures added { OnOk result (IsClean (S.Store.view store.new.store)
        → Adds (records_in (S.Store.view store.old.store).trees) rows.now
        (records_in (S.Store.view store.new.store).trees)) }
    ensures clean { doubt (S.Store.view store.old.store).is_clean
        ≤ doubt (S.Store.view store.new.store).is_clean }
    ensures committed { IsTrue (S.Store.view store.new.store).is_open
        → (S.Store.view store.new.store).committed ≡ (S.Store.view store.old.store).committed }
    ensures shut { IsTrue (S.Store.view store.new.store).is_open
        → IsTrue (S.Store.view store.old.store).is_open }
{
    for row in rows {
        append(store, row, at)?;
    }
    Ok(())
}

/// Adds rows, in order, and commits them.
fn commit_all<S: Store>(store: &mut EventStore<S>, rows: &[Row], at: i64) -> Result<(), StoreError>
    ensures seen { OnOk result (IsClean (S.Store.view store.new.store)
        → Adds (records_in (S.Store.view store.old.store).trees) rows.now
        (records_in (S.Store.view store.new.store).trees)) }
    ensures left { OnOk result (IsClean (S.Store.view store.new.store)
        → (db : Trees) → S.Store.recovers store.new.store db
        → Adds (records_in (S.Store.view store.old.store).trees) rows.now (records_in db)) }
    ensures clean { doubt (S.Store.view store.old.store).is_clean
        ≤ doubt (S.Store.view store.new.store).is_clean }
    ensures open { OnOk result (IsClean (S.Store.view store.new.store)
        → IsTrue (S.Store.view store.old.store).is_open) }
    ensures committed { OnErr result (IsTrue (S.Store.view store.new.store).is_open
        → (S.Store.view store.new.store).committed ≡ (S.Store.view store.old.store).committed) }
    ensures shut { IsTrue (S.Store.view store.new.store).is_open
        → IsTrue (S.Store.view store.old.store).is_open }
{
    append_all(store, rows, at)?;
    store.commit()?;
    Ok(())
}

/// Writes the rows of changes as of this moment, in milliseconds since 1970, and commits them. Returns how many changes they
/// are. A plan is in force before them, and is replaced by the one that is in force after them.
///
/// # Errors
///
/// The store's. What is left in its transaction is dropped, and the changes are kept.
pub(crate) fn write_all<S: Store>(
    store: &mut EventStore<S>,
    changes: &mut Vec<Copied>,
    plan: &mut Arc<Plan>,
    batch: Batch,
    at: i64,
) -> Result<usize, StoreError>
    requires ready { AreReady batch.rows.items (map change_copied changes.old.items) }
    ensures seen { OnOk result (IsClean (S.Store.view store.new.store)
        → HasRows (records_in (S.Store.view store.old.store).trees)
        (records_in (S.Store.view store.new.store).trees) (map change_copied changes.old.items)) }
    ensures left { OnOk result (IsClean (S.Store.view store.new.store)
        → (db : Trees) → S.Store.recovers store.new.store db
        → HasRows (records_in (S.Store.view store.old.store).trees)
        (records_in db) (map change_copied changes.old.items)) }
    ensures clean { doubt (S.Store.view store.old.store).is_clean
        ≤ doubt (S.Store.view store.new.store).is_clean }
    ensures open { OnOk result (IsClean (S.Store.view store.new.store)
        → IsTrue (S.Store.view store.old.store).is_open) }
    ensures dropped { OnErr result (IsTrue (S.Store.view store.new.store).is_open
        → IsRolledBack (S.Store.view store.old.store) (S.Store.view store.new.store)) }
    ensures count { IfOk result (λ count. count ≡ length changes.old.items) }
    ensures written { OnOk result (changes.new.items ≡ []) }
    ensures kept { OnErr result (changes.new.items ≡ changes.old.items) }
{
    match commit_all(store, batch.rows.as_slice(), at) {
        Ok(()) => {
            *plan = batch.plan;
            let count = changes.len();
            changes.clear();
            Ok(count)
        }
        Err(error) => {
            store.rollback();
            Err(error)
        }
    }
}
