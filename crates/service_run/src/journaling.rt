//! The threads of a service with a store: its workers, the thread that obeys commands, the one that reserves the numbers of
//! connections, and the journal, which writes what was booked to the store.

ghost use Rattle.std.specs.Prelude.{◌≡◌, List, OnOk};
ghost use Rattle.book_journal.specs.inner.Held.{AreHeld};
ghost use Rattle.book_lock.specs.Durable.{changes_of};
ghost use Rattle.book_lock.specs.declared.log_entry.LogEntry.{LogEntry};

use crate::execution::execute_all;
use crate::figures::Watch;
use crate::settings::Settings;
use crate::stored::STORE_FAILED;
use crate::threads::{STACK_BYTES, halt, start_all};
use crate::workers::Workers;
use book_journal::{Journal, JournalError, Journaling, StoreFigures, StoreReport};
use book_lock::Sharing;
use log::{Log, info, warn};
use service_store::{ConnectionNumbers, HoldsFile, Witness};
use service_workers::{Crew, Site, Stage, has_ended};
use sqlite_trees::store::Store;
use std::sync::atomic::{AtomicBool, Ordering};
use std::sync::{Mutex, Wait};
use std::thread;
use std::thread::{Builder, Scope, Threads};
use std::time::Duration;

/// How many milliseconds pass between two looks at the numbers of connections.
const LOOK_MILLIS: u64 = 20;

/// After how many looks at the numbers of connections a second has passed.
const LOOKS_OF_A_SECOND: u32 = 50;

/// How few numbers of connections are left where more are reserved.
const FEW_NUMBERS: u32 = 500;

/// What the thread has that obeys commands.
#[derive(Drop)]
pub(crate) struct Operation<'s, A: Sharing> {
    rt: &'s HostRuntime,
    workers: &'s Workers<A>,
    settings: Settings<'s>,
    started: u64,
    /// What the journal has written.
    figures: StoreFigures,
    /// The file that keeps the names of the destinations that are held.
    holds: HoldsFile,
    /// Whether all workers have ended, so that nothing more is booked.
    has_ended: AtomicBool,
}

/// What the thread has that reserves the numbers of connections.
#[derive(Drop)]
pub(crate) struct Reserving<'s> {
    rt: &'s HostRuntime,
    numbers: Mutex<ConnectionNumbers>,
    /// How many records the store has had at least.
    witness: Mutex<Witness>,
    /// What the journal has written.
    figures: &'s StoreFigures,
}

/// How a service with a store has worked.
#[derive(Clone, Copy, Debug, PartialEq, Eq)]
pub(crate) enum Ending {
    /// All that was booked is in the store.
    Written,
    /// Not enough threads could be started.
    NoThreads,
    /// The journal failed.
    Failed(JournalError),
}

/// Obeys commands until all workers have ended, and notes that they have.
fn operate<A: Sharing, H: Crew>(site: &Site<'_, A, H>, operation: &Operation<'_, A>) {
    let Operation {
        rt,
        workers,
        settings,
        started,
        figures,
        holds,
        has_ended,
    } = operation;
    let watch = Watch {
        started: *started,
        store: Some(figures),
    };
    execute_all(rt, site, workers, settings, watch, Some(holds));
    has_ended.store(true, Ordering::SeqCst);
}

/// Logs where the disk of the store has no room any more, and where it has some again. Returns whether it has none.
fn watch_room<H: Log>(handle: &H, figures: &StoreFigures, had_no_room: bool) -> bool {
    let StoreReport {
        has_no_room,
        changes,
        ..
    } = figures.report();
    if has_no_room && !had_no_room {
        warn!(handle; target: "always", changes; "the disk of the store has no room: nothing is acknowledged until it has");
    }
    if had_no_room && !has_no_room {
        info!(handle; target: "always", changes; "the disk of the store has room again");
    }
    has_no_room
}

/// Notes how many records the store has now. Where that can't be written, the number of before is still a lower bound.
fn note_records<H: Wait>(handle: &H, reserving: &Reserving<'_>) {
    let written = reserving.figures.report().changes;
    let _ = reserving.witness.lock(handle).note(reserving.rt, written);
}

/// Reserves more numbers of connections in the store whenever few are left, notes each second how many records it has, and watches
/// whether its disk has room, until all workers have ended. A journal without room gives up once the service stops.
fn reserve_numbers<A: Sharing, H: Crew>(site: &Site<'_, A, H>, reserving: &Reserving<'_>) {
    let (mut has_no_room, mut looks) = (false, 0u32);
    for _ in site.rt.forever() {
        looks = looks.saturating_add(1) % LOOKS_OF_A_SECOND;
        if looks == 0 {
            note_records(site.rt, reserving);
        }
        has_no_room = watch_room(site.rt, reserving.figures, has_no_room);
        if site.stage() != Stage::Open {
            reserving.figures.give_up();
            if has_ended(site) {
                return;
            }
        }
        if site.numbers_left() < FEW_NUMBERS {
            let mut numbers = reserving.numbers.lock(site.rt);
            match numbers.reserve(reserving.rt) {
                Ok(end) => site.note_reserved(end),
                Err(error) =>
                    warn!(site.rt; "the numbers of connections can't be reserved: {error}"),
            }
        }
        thread::sleep(site.rt, Duration::from_millis(LOOK_MILLIS));
    }
}

/// Starts the thread that obeys commands. Returns whether it was started.
fn start_operator<'s, 'x: 's, E: 's, A: Sharing + Send + Sync + 's, H: Crew + Sync + 's>(
    scope: &Scope<'s, E>,
    site: &'s Site<'x, A, H>,
    operation: &'s Operation<'s, A>,
) -> bool {
    Builder::new()
        .stack_size(STACK_BYTES)
        .spawn_scoped(scope, move || operate(site, operation))
        .is_ok()
}

/// Starts the thread that reserves the numbers of connections. Returns whether it was started.
fn start_reserving<'s, 'x: 's, E: 's, A: Sharing + Send + Sync + 's, H: Crew + Sync + 's>(
    scope: &Scope<'s, E>,
    site: &'s Site<'x, A, H>,
    reserving: &'s Reserving<'s>,
) -> bool {
    Builder::new()
        .stack_size(STACK_BYTES)
        .spawn_scoped(scope, move || reserve_numbers(site, reserving))
        .is_ok()
}

/// Starts all workers, and writes what they book to the store until they have ended. Where not enough threads can be started, or
/// the journal fails, the workers are ended at once, and nothing more is acknowledged.
fn work_journaled_within<
    's,
    'x: 's,
    E: 's,
    A: Journaling + Send + Sync + 's,
    S: Store,
    H: Crew + Sync + 's,
>(
    scope: &Scope<'s, E>,
    site: &'s Site<'x, A, H>,
    operation: &'s Operation<'s, A>,
    reserving: &'s Reserving<'s>,
    journal: &mut Journal<A, S>,
) -> Ending
    requires committed { (store : S) (changes : List LogEntry)
        → AreHeld (S.Store.view store) (S.Store.recovers store) A.before changes
        → A.committed changes }
{
    // From its first step on, what a pruning forgets is kept for the journal.
    if let Err(error) = journal.step(site.rt, site.alloc, site.shared) {
        return Ending::Failed(error);
    }
    let workers = operation.workers;
    let watch = Watch {
        started: operation.started,
        store: Some(&operation.figures),
    };
    if !start_all(scope, site, workers, watch)
        || !start_reserving(scope, site, reserving)
        || !start_operator(scope, site, operation)
    {
        halt(site, workers);
        site.shared.fail_journal(site.rt);
        return Ending::NoThreads;
    }
    info!(site.rt; "the service is ready");
    match journal.run(
        site.rt,
        site.alloc,
        site.shared,
        &operation.has_ended,
        &operation.figures,
    ) {
        Ok(()) => Ending::Written,
        Err(error) => {
            let status = STORE_FAILED;
            warn!(site.rt; target: "always", status; "the store failed, so the service ends: {error}");
            halt(site, workers);
            Ending::Failed(error)
        }
    }
}

/// What the threads of a service share, beside its site.
pub(crate) fn operation_of<'s, A: Sharing>(
    rt: &'s HostRuntime,
    workers: &'s Workers<A>,
    settings: &Settings<'s>,
    started: u64,
    holds: HoldsFile,
) -> Operation<'s, A> {
    Operation {
        rt,
        workers,
        settings: *settings,
        started,
        figures: StoreFigures::new(),
        holds,
        has_ended: AtomicBool::new(false),
    }
}

/// Works until all workers have ended, and all that they booked is in the store, or the journal has failed.
pub(crate) fn work_journaled<
    'y,
    'x: 'y,
    A: Journaling + Send + Sync,
    S: Store,
    H: Crew + Threads + Sync,
>(
    handle: &H,
    site: &'y Site<'x, A, H>,
    operation: &'y Operation<'y, A>,
    numbers: ConnectionNumbers,
    witness: Witness,
    journal: &mut Journal<A, S>,
) -> Ending
    requires committed { (store : S) (changes : List LogEntry)
        → AreHeld (S.Store.view store) (S.Store.recovers store) A.before changes
        → A.committed changes }
{
    let reserving = Reserving {
        rt: operation.rt,
        numbers: Mutex::new(numbers),
        witness: Mutex::new(witness),
        figures: &operation.figures,
    };
    let shared = &reserving;
    let mut ending = Ending::NoThreads;
    let end = &mut ending;
    thread::scope(
        thread::scope_env(),
        handle,
        |scope|
            requires { (store : S) (changes : List LogEntry)
                → AreHeld (S.Store.view store) (S.Store.recovers store) A.before changes
                → A.committed changes }
        {
            *end = work_journaled_within(scope, site, operation, shared, journal);
        },
    );
    ending
}
