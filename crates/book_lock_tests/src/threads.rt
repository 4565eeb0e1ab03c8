//! Two threads at a shared book.

ghost use Rattle.std.specs.Prelude.{◌≡◌, ◌+◌, ◌<◌, length};
ghost use Rattle.event_log.specs.History.{next_place, plan_in_force};
ghost use Rattle.event_log.specs.Counting.{counted};

use crate::stage::{Rows, UPDATE, Waiting, filled};
use book_core::{Book, BookRows, EVENTS_MAX};
use book_lock::{Closed, LogEntry, Opened, Shared, Sharing, Station};
use conn_worker::nearest;
use dest_queue::{FailCause, Outcome, SlotState};
use ghost_log::BlankLog;
use log::Log;
use std::alloc::Global;
use std::hash::RandomState;
use std::marker::Brand;
use std::sync::Wait;
use std::test::Fail;
use std::thread;
use std::thread::Threads;

/// How often both are tried.
const ROUNDS: u32 = 200;

/// Takes the front of each of four queues, and has it delivered.
fn deliver_all<A: Sharing, S: BookRows, H: Wait + Log>(
    rt: &H,
    shared: &Shared<A, S>,
    station: Station<A>,
) -> Station<A> {
    let mut station = station;
    for d in 0..4 {
        if let Ok(job) = shared.take(rt, &mut station, d, nearest(0)) {
            let _ = shared.settle(
                rt,
                &mut station,
                &job.ticket,
                Outcome::Delivered,
                nearest(0),
            );
        }
    }
    station
}

/// Cancels message 0. Whether a slot of it waited.
fn cancel<A: Sharing, S: BookRows, H: Wait + Log>(rt: &H, shared: &Shared<A, S>) -> bool {
    shared.cancel(rt, 0).is_ok()
}

/// Cancels message 0 on one thread, while another delivers what waits.
fn beside<A: Sharing + Send + Sync, S: BookRows + Send, H: Log + Threads + Wait + Sync>(
    rt: &H,
    shared: &Shared<A, S>,
    station: Station<A>,
) -> Station<A> {
    let (_, station) = thread::join(
        rt,
        move || cancel(rt, shared),
        move || deliver_all(rt, shared, station),
    );
    station
}

/// Cancels message 0 of a shared book, while the last of the stations delivers what waits.
fn work_beside<A: Sharing + Send + Sync, S: BookRows + Send, H: Log + Threads + Wait + Sync>(
    rt: &H,
    shared: &Shared<A, S>,
    stations: &mut Vec<Station<A>>,
) -> Option<()> {
    let station = stations.pop()?;
    stations.push(beside(rt, shared, station)).ok()
}

/// Shares a book, has its message 0 cancelled beside its deliveries, and closes it. None where memory is refused.
fn cancel_and_deliver<
    A: Sharing + Send + Sync,
    S: BookRows + Drop + Send,
    H: Log + Threads + Wait + Sync,
>(rt: &H, alloc: Global, book: Book<S>, log: BlankLog<LogEntry>) -> Option<Closed<S>>
    requires opening { book ≡ A.opening }
    requires log { log.table.shared.table_id ≡ A.table }
    requires counts { counted book ≡ A.counts }
    requires first { next_place book ≡ A.first }
    requires channels { length (plan_in_force book).channels ≡ A.channels }
    requires seats { (A.desks ≡ 0) × (A.stations ≡ 1) }
{
    let opened = Shared::<A, S>::new(alloc, book, 0, 1, log);
    let Opened {
        shared,
        desks,
        mut stations,
    } = opened.ok()?;
    work_beside(rt, &shared, &mut stations)?;
    shared.close(desks, stations).ok()
}

/// Whether the slot at a destination reached its end, and is counted there once.
fn is_over<S: BookRows>(book: &Book<S>, d: u32) -> bool
    requires { d < 32 }
{
    let state = book.status(0, d);
    let counts = book.counts().destination(d);
    let ended = state == Some(SlotState::Delivered)
        || state == Some(SlotState::Failed(FailCause::Cancelled));
    ended && counts.delivered.saturating_add(counts.failed) == 1
}

/// Whether each slot of message 0 was delivered or cancelled, and the statistics count as many as there are.
fn is_right<S: BookRows>(book: &Book<S>) -> bool {
    book.status(0, 0).is_none() && is_over(book, 1) && is_over(book, 2) && is_over(book, 3)
}

/// Whether a cancellation beside deliveries, in this book, comes out as it is to.
fn comes_out<S: BookRows + Drop + Send, H: Log + Threads + Wait + Sync>(
    rt: &H,
    alloc: Global,
    book: Book<S>,
    log: BlankLog<LogEntry>,
) -> bool {
    match cancel_and_deliver::<Brand, S, H>(rt, alloc, book, log) {
        Some(closed) => is_right(closed.book()),
        None => false,
    }
}

/// A book of four destinations, in which an update waits.
const ONE_UPDATE: Waiting = Waiting {
    four: true,
    room: EVENTS_MAX,
    messages: &[UPDATE],
};

/// Whether a cancellation beside deliveries comes out as it is to.
fn is_cancelled_beside<H: Log + Threads + Wait + Sync>(
    rt: &H,
    alloc: Global,
    hasher: RandomState,
) -> Result<bool, Fail> {
    let log = BlankLog::new(alloc)?;
    let book = filled::<Rows>(alloc, hasher, &ONE_UPDATE)?;
    Ok(comes_out(rt, alloc, book, log))
}

/// Each slot is delivered or cancelled at the end, and the statistics count as many as there are.
#[test]
fn cancel_beside_deliveries(rt: HostRuntime) -> Result<(), Fail> {
    let hasher = RandomState::new(&rt)?;
    for _ in 0..ROUNDS {
        let right = is_cancelled_beside(&rt, rt.alloc(), hasher)?;
        assert!(rt; right);
    }
    Ok(())
}
