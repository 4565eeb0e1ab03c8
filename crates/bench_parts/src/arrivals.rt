//! Arrivals at a shared book that nobody else calls: taking the lock, booking, counting for the desk, noting which queues
//! changed, and leaving the lock.

ghost use Rattle.std.specs.Prelude.{◌≡◌, ◌+◌, length};
ghost use Rattle.event_log.specs.History.{next_place, plan_in_force};
ghost use Rattle.event_log.specs.Counting.{counted};

use crate::desk::booked;
use crate::message::{ADMISSION, Rows};
use book_core::Book;
use book_lock::{Desk, LogEntry, Opened, Shared, Sharing};
use ghost_log::BlankLog;
use plan_text::Plan;
use std::alloc::Global;
use std::marker::Brand;
use std::ops::Range;
use std::sync::{Arc, Wait};
use std::time::Clock;

/// Books and cancels messages, two entries each, until there are as many entries as are given.
fn fill<A: Sharing, H: Wait + Clock>(
    rt: &H,
    alloc: Global,
    shared: &Shared<A, Rows>,
    desk: &mut Desk<A>,
    plan: &Arc<Plan>,
    entries: u32,
) -> Option<()> {
    for number in 0..entries / 2 {
        booked(rt, alloc, shared, desk, plan, ADMISSION, number)?;
        shared.cancel(rt, number).ok()?;
    }
    Some(())
}

/// Books messages, and returns the nanoseconds that all calls took.
fn book_all<A: Sharing, H: Wait + Clock>(
    rt: &H,
    alloc: Global,
    shared: &Shared<A, Rows>,
    desk: &mut Desk<A>,
    plan: &Arc<Plan>,
    ids: Range<u32>,
) -> Option<u64> {
    let mut all = 0_u64;
    for control_id in ids {
        let (_, took) = booked(rt, alloc, shared, desk, plan, ADMISSION, control_id)?;
        all = all.saturating_add(took);
    }
    Some(all)
}

/// Fills a shared book with `entries` entries, and books further messages at its first desk.
fn fill_and_book<A: Sharing, H: Wait + Clock>(
    rt: &H,
    alloc: Global,
    shared: &Shared<A, Rows>,
    desks: &mut Vec<Desk<A>>,
    entries: u32,
    calls: u32,
) -> Option<u64> {
    let desk = desks.get_mut(0)?;
    let plan = shared.plan(rt).ok()?;
    fill(rt, alloc, shared, desk, &plan, entries)?;
    let first = entries / 2;
    let ids = first..first.saturating_add(calls);
    book_all(rt, alloc, shared, desk, &plan, ids)
}

/// Shares a book, and books messages behind the entries that fill it.
fn time_calls<A: Sharing, H: Wait + Clock>(
    rt: &H,
    alloc: Global,
    book: Book<Rows>,
    log: BlankLog<LogEntry>,
    entries: u32,
    calls: u32,
) -> Option<u64>
    requires opening { book ≡ A.opening }
    requires log { log.table.shared.table_id ≡ A.table }
    requires counts { counted book ≡ A.counts }
    requires first { next_place book ≡ A.first }
    requires channels { length (plan_in_force book).channels ≡ A.channels }
    requires seats { (A.desks ≡ 1) × (A.stations ≡ 0) }
{
    let opened = Shared::<A, Rows>::new(alloc, book, 1, 0, log);
    let Opened {
        shared,
        mut desks,
        ..
    } = opened.ok()?;
    fill_and_book(rt, alloc, &shared, &mut desks, entries, calls)
}

/// The nanoseconds that arrivals take behind the entries that fill an empty book that is shared. None where
/// a message was not booked, or memory was refused.
pub(crate) fn time_arrivals<H: Wait + Clock>(
    rt: &H,
    alloc: Global,
    book: Option<Book<Rows>>,
    entries: u32,
    calls: u32,
) -> Option<u64> {
    let log = BlankLog::new(alloc).ok()?;
    time_calls::<Brand, H>(rt, alloc, book?, log, entries, calls)
}
