ghost use Rattle.std.specs.Prelude.{◌≡◌, ◌↔◌, ◌+◌, ◌^◌, ◌<◌, ◌≤◌, false, length, map, pos, IsTrue, IfOk, IfErr, IfSome, OnOk, MatchOption};
ghost use Rattle.sqlite_value.specs.declared.value.Value.TheVariants as value;
ghost use Rattle.sqlite_value.specs.Order.{column};
ghost use Rattle.sqlite_disk.specs.Disk.{MoreFaults};
ghost use Rattle.sqlite_trees.specs.View.{IsClean, IsQuiet};
ghost use Rattle.event_store.specs.Records.{Record, record_row, contents_in, contents_of, HoldsRecords, IsReadFailure};
ghost use Rattle.event_store.specs.inner.Reading.{IsRowOf, OnlyReads};

use crate::NUMBERS;
use crate::columns::StoredRecord;
use sqlite_trees::error::StoreError;
use sqlite_trees::store::{Direction, Shape, Store};
use sqlite_value::row::Row;
use sqlite_value::value::ValueRef;
use std::alloc::{AllocError, Global};

/// Whether the row has this number.
fn is_numbered(row: &Row, number: u64) -> bool
    requires { number < 2 ^ 62 }
    ensures { IsTrue result ↔ ((column row.now 0 ≡ value.Int (pos number))
        × (column row.now 1 ≡ value.Null)) }
{
    matches!((row.get(0), row.get(1)), (ValueRef::Int(id), ValueRef::Null) if id == number as i64)
}

/// The record that the row holds, if it is the row of a record of this number.
fn record_in(alloc: Global, row: &Row, number: u64) -> Result<Option<StoredRecord>, AllocError>
    requires { number < 2 ^ 62 }
    ensures { IfOk result (λ found. MatchOption found
        ((r : Record) → row.now ≡ record_row number r → ⊥)
        (λ r. IsRowOf number (contents_of r) row.now)) }
{
    if !is_numbered(row, number) {
        return Ok(None);
    }
    let (ValueRef::Blob(body), ValueRef::Int(at), ValueRef::Text(peer)) = (
        row.get(2),
        row.get(3),
        row.get(4),
    ) else {
        return Ok(None);
    };
    let body = Vec::from_slice(alloc, body)?;
    let peer = Vec::from_slice(alloc, peer)?;
    Ok(Some(StoredRecord { body, at, peer }))
}

/// The records of the table, or `None` where it doesn't hold records alone, in order from this number with no gap.
pub(crate) fn read<S: Store>(
    alloc: Global,
    first: u64,
    store: &mut S,
    row: &mut Row,
) -> Result<Option<Vec<StoredRecord>>, StoreError>
    ensures ok { IfOk result (λ found. IsClean (S.Store.view store.new)
        → MatchOption found (HoldsRecords first (S.Store.view store.old).trees → ⊥)
        (λ all. HoldsRecords first (S.Store.view store.old).trees
        × (map contents_of all.items ≡ contents_in (S.Store.view store.old).trees))) }
    ensures fits { IfOk result (λ found. IfSome found (λ all. first + length all.items < 2 ^ 62)) }
    ensures same { OnOk result (IsClean (S.Store.view store.new)
        → OnlyReads (S.Store.view store.old) (S.Store.view store.new)) }
    ensures sound { OnOk result (IsClean (S.Store.view store.new)
        → (S.Store.view store.old).is_broken ≡ false) }
    ensures cause { IsClean (S.Store.view store.new)
        → IfErr result (IsReadFailure first (S.Store.view store.old)
        (MoreFaults (S.Store.faults store.old) (S.Store.faults store.new))) }
    ensures quiet { IsQuiet S.Store.view S.Store.faults S.Store.recovers S.Store.is_shielded
        store.old store.new }
{
    let mut all = Vec::new(alloc);
    if store.shape(0) != Shape::Table {
        return Err(StoreError::Unstorable);
    }
    let key = Row::new(alloc);
    store.seek(0, 0, &key, Direction::Forward)?;
    for number in first..NUMBERS {
        if !store.next(0, row)? {
            return Ok(Some(all));
        }
        let held = record_in(alloc, row, number)?;
        let Some(record) = held else {
            return Ok(None);
        };
        all.push(record)?;
    }
    Err(StoreError::Full)
}
