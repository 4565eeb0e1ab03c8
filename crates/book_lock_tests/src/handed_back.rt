//! A shared book that comes back from a close that was refused.

ghost use Rattle.std.specs.Prelude.{◌≡◌, ◌+◌, length};
ghost use Rattle.event_log.specs.History.{next_place, plan_in_force};
ghost use Rattle.event_log.specs.Counting.{counted};

use crate::stage::{EMPTY, M1, Rows, bring, filled};
use book_core::{Book, BookRows};
use book_lock::{LogEntry, NotClosed, Opened, Shared, Sharing};
use ghost_log::BlankLog;
use log::Log;
use std::alloc::Global;
use std::hash::RandomState;
use std::marker::Brand;
use std::sync::Wait;
use std::test::Fail;

/// Books a message, notes that none will follow where that is asked for, and closes the book without its desk. Whether the
/// shared book that comes back has the note; None where the close is not refused.
fn noted_after_close<A: Sharing, S: BookRows + Drop, H: Wait + Log>(
    rt: &H,
    alloc: Global,
    book: Book<S>,
    log: BlankLog<LogEntry>,
    finish: bool,
) -> Option<bool>
    requires opening { book ≡ A.opening }
    requires log { log.table.shared.table_id ≡ A.table }
    requires counts { counted book ≡ A.counts }
    requires first { next_place book ≡ A.first }
    requires channels { length (plan_in_force book).channels ≡ A.channels }
    requires seats { (A.desks ≡ 1) × (A.stations ≡ 0) }
{
    let opened = Shared::<A, S>::new(alloc, book, 1, 0, log);
    let Opened {
        shared,
        mut desks,
        stations,
    } = opened.ok()?;
    bring(rt, alloc, &shared, desks.first_mut()?, 0, M1)?;
    if finish {
        shared.finish(rt);
    }
    match shared.close(Vec::new(alloc), stations) {
        Ok(_) => None,
        Err(NotClosed::SharesMissing { shared, .. }) => Some(shared.is_finished()),
    }
}

/// The same with brands of their own.
fn noted<S: BookRows + Drop, H: Wait + Log>(
    rt: &H,
    alloc: Global,
    book: Book<S>,
    finish: bool,
) -> Option<bool> {
    let log = BlankLog::new(alloc).ok()?;
    noted_after_close::<Brand, S, H>(rt, alloc, book, log, finish)
}

/// The same with an empty book.
fn noted_of_empty<H: Wait + Log>(
    rt: &H,
    alloc: Global,
    hasher: RandomState,
    finish: bool,
) -> Result<Option<bool>, Fail> {
    let book = filled::<Rows>(alloc, hasher, &EMPTY)?;
    Ok(noted(rt, alloc, book, finish))
}

/// A shared book that comes back is finished where it was noted before the close that no arrival will follow, and not
/// otherwise.
#[test]
fn the_note_comes_back(rt: HostRuntime) -> Result<(), Fail> {
    let hasher = RandomState::new(&rt)?;
    for finish in [true, false] {
        let noted = noted_of_empty(&rt, rt.alloc(), hasher, finish)?;
        assert!(rt; noted == Some(finish));
    }
    Ok(())
}
