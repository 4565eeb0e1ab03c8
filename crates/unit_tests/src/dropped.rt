//! Items whose drops are counted.

ghost use Rattle.std.specs.Prelude.{◌<◌, ◌+◌, All};

use record_list::RecordList;
use row_store::{QUEUES, RowStore};
use std::alloc::Global;
use std::marker::Send;
use std::process::Abort;
use std::sync::atomic::{AtomicU64, Ordering};
use std::test::*;

/// The queues in which the rows are, row by row, and again from the first.
const MASKS: [u32; 8] = [40, 8, 32, 40, 0, 0xFFFF_FFFF, 1, 0x8000_0000];

/// How many rows there are: enough that the list of rows grows.
const ROWS: u32 = 24;

/// The number whose digit of base 4, at the place of each row, is one.
const EACH_ONCE: u64 = 0x5555_5555_5555;

/// An item that counts how often it was dropped: in a digit of base 4, at the place of its row.
struct Item<'a> {
    number: u32,
    drops: &'a AtomicU64,
}

impl Drop for Item<'_> {
    fn drop(self) {
        let Item { number, drops } = self;
        drops.fetch_add(1 << (number % ROWS * 2), Ordering::SeqCst);
    }
}

/// How often the item of a row was dropped.
fn drops_of(drops: &AtomicU64, number: u32) -> u64 {
    drops.load(Ordering::SeqCst) >> (number % ROWS * 2) & 3
}

/// The store has the first rows, as many as are given, each with its item, and no other.
fn has_first(rows: &RecordList<Item>, count: u32) -> bool {
    if rows.len() != count as usize || rows.get(count).is_some() {
        return false;
    }
    for number in 0..count {
        match rows.get(number) {
            Some(item) if item.number == number => {}
            _ => return false,
        }
    }
    true
}

/// The front of each queue is the first row that is in it.
fn has_fronts(rows: &mut RecordList<Item>) -> bool {
    for d in 0..QUEUES {
        let first = MASKS.iter().position(|mask| mask >> d & 1 == 1);
        if rows.front(d).map(|number| number as usize) != first {
            return false;
        }
    }
    true
}

/// Adds a row. Where memory is wanting, the store is to be as before, and the item that comes back is added again.
fn push_through<'a>(
    rt: &impl Abort,
    rows: &mut RecordList<Item<'a>>,
    number: u32,
    drops: &'a AtomicU64,
)
    requires { All (λ row. row.number < number) rows.old.rows }
    ensures { All (λ row. row.number < number + 1) rows.new.rows }
{
    let mask = MASKS[number as usize % 8];
    if let Err(refused) = rows.push(number, Item { number, drops }, mask) {
        assert!(rt;
            has_first(rows, number),
            "row {number} was refused: the rows"
        );
        assert_eq!(rt;
            drops_of(drops, number),
            0,
            "row {number} was refused: its item"
        );
        let again = rows.push(number, refused.value, mask);
        assert!(rt; again.is_ok(), "row {number} was refused again");
    }
}

/// A store with all rows.
fn filled<'a>(rt: &impl Abort, alloc: Global, drops: &'a AtomicU64) -> RecordList<Item<'a>> {
    let mut rows = RowStore::make(alloc);
    for number in 0..ROWS {
        push_through(rt, &mut rows, number, drops);
    }
    rows
}

/// What crosses to another thread.
fn crosses<V: Send>(value: V) -> V {
    value
}

/// A store crosses where its items do.
fn rows_cross<T: Drop + Send>(rows: RecordList<T>) -> RecordList<T> {
    crosses(rows)
}

#[test]
fn each_item_is_dropped_once(rt: HostRuntime) {
    let drops = AtomicU64::new(0);
    let mut rows = rows_cross(filled(&rt, rt.alloc(), &drops));
    assert!(rt; has_first(&rows, ROWS) && has_fronts(&mut rows));
    assert!(rt; rows.unlink(0, 3) && rows.unlink(3, 5) && rows.unlink(5, 31) && !rows.unlink(4, 0));
    for number in [2, 5, 0, 23] {
        let taken = rows.remove(number);
        assert!(rt;
            taken.is_some() && rows.get(number).is_none(),
            "row {number}"
        );
        assert_eq!(rt; drops_of(&drops, number), 0, "row {number}");
        drop(taken);
        assert_eq!(rt; drops_of(&drops, number), 1, "row {number}");
        assert!(rt; rows.remove(number).is_none(), "row {number}");
    }
    assert_eq!(rt; drops_of(&drops, 1), 0);
    drop(rows);
    assert_eq!(rt; drops.load(Ordering::SeqCst), EACH_ONCE);
}
