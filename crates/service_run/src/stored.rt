//! A service with a store, from its start to its end.

ghost use Rattle.std.specs.Prelude.{◌≡◌, ◌+◌, [], IfOk, IfSome, List, length, map};
ghost use Rattle.sqlite_store.specs.FileStore.{recovers, view};
ghost use Rattle.sqlite_trees.specs.View.{IsClean};
ghost use Rattle.event_log.specs.History.{next_place, plan_in_force};
ghost use Rattle.event_log.specs.Counting.{counted};
ghost use Rattle.event_store.specs.Records.{AreDurable, records_in};
ghost use Rattle.book_journal.specs.inner.Held.{AreHeld};
ghost use Rattle.book_lock.specs.declared.log_entry.LogEntry.{LogEntry as Change};
ghost use Rattle.book_lock.specs.inner.Log.{new_seats};

use crate::ending::end;
use crate::holding::log_held;
use crate::journaling::{Ending, operation_of, work_journaled};
use crate::listeners::{Listeners, open_listeners};
use crate::service::{POSTS, RunEnd, VERSION, log_descriptors, log_start, seconds_now};
use crate::settings::Settings;
use crate::workers::Workers;
use book_core::{Book, DeployRefusal, EVENTS_MAX, Ticket};
use book_journal::{Journal, Journaling};
use book_lock::{Desk, JournalReader, LogEntry, Opened, Shared, Sharing};
use conn_worker::nearest;
use engine_report::{Fault, Trouble, connections_of};
use event_store::EventStore;
use ghost_log::BlankLog;
use log::{Log, info, warn};
use log_text::Escaped;
use plan_text::Plan;
use service_answers::Origin;
use service_store::{
    ConnectionNumbers, Flights, NextFile, ServiceStore, StartError, StartRequest, Started,
    StoredHolds, Witness, close_store, start_in_folder,
};
use service_workers::{Crew, HeldNames, History, ServiceRows, Site};
use sqlite_std_file::File;
use sqlite_store::FileStore;
use sqlite_trees::store::Store;
use std::alloc::{AllocError, Global};
use std::marker::Brand;
use std::sync::Arc;
use std::thread::Threads;

/// What a service with a store begins with.
#[derive(Drop)]
struct Beginning<S: Store> {
    /// The listeners.
    listeners: Listeners,
    /// The book, as it was recovered.
    book: Book<ServiceRows>,
    /// The store that has the records from which the book was recovered.
    store: EventStore<S>,
    /// From where connections go on, and the destinations that are held.
    connections: Connections,
}

/// From where the connections, the moments and the holds of a service with a store go on.
#[derive(Drop)]
struct Connections {
    /// The numbers of connections.
    numbers: ConnectionNumbers,
    /// How many records the store has had at least.
    witness: Witness,
    /// The last moment in the store, in seconds since 1970.
    last_second: u64,
    /// The destinations that are held.
    holds: StoredHolds,
}

/// The exit status where a write or a sync of the store has failed.
pub(crate) const STORE_FAILED: u8 = 6;

/// The last of this number of new desks, which is that of the journal.
///
/// # Errors
///
/// Where there is none.
fn journal_desk<A: Sharing>(desks: &mut Vec<Desk<A>>, _count: usize) -> Result<Desk<A>, AllocError>
    requires { map (λ d. d.seat) desks.old.items ≡ new_seats 0 _count }
    ensures { IfOk result (λ d. d.seat.seen ≡ []) }
{
    match desks.pop() {
        Some(desk) => Ok(desk),
        None => Err(AllocError),
    }
}

/// How the workers and the journal of a service with a store have worked.
#[derive(Clone, Copy)]
struct Journaled {
    ending: Ending,
    /// How many messages failed since their last attempt was cut off by the stop.
    cut: u64,
}

/// Runs all workers over a shared book, and the journal beside them, until they have ended.
fn run_journaled<A: Journaling + Send + Sync, S: Store, H: Crew + Threads + Sync>(
    rt: &HostRuntime,
    handle: &H,
    settings: &Settings,
    shared: &Shared<A, ServiceRows>,
    workers: &Workers<A>,
    connections: Connections,
    plan: &Plan,
    journal: &mut Journal<A, S>,
) -> Journaled
    requires committed { (store : S) (changes : List Change)
        → AreHeld (S.Store.view store) (S.Store.recovers store) A.before changes
        → A.committed changes }
{
    let Connections {
        numbers,
        witness,
        last_second,
        holds: StoredHolds { file, names },
    } = connections;
    let history = History::Store {
        first_connection: numbers.first(),
        reserved: numbers.end(),
        last_second,
    };
    let Settings {
        keep,
        idle,
        answer_text,
        ..
    } = *settings;
    let alloc = rt.alloc();
    let site = Site::new(handle, alloc, shared, keep, idle, history, answer_text);
    let names = HeldNames::new(names);
    log_held(handle, plan, &names);
    site.set_held(names, plan);
    if settings.plan == Origin::Store {
        site.keep_plan();
    }
    let operation = operation_of(rt, workers, settings, seconds_now(handle), file);
    let ending = work_journaled(handle, &site, &operation, numbers, witness, journal);
    Journaled {
        ending,
        cut: site.cut(),
    }
}

/// How a service with a store ended, by how its workers and its journal did, and by how its book was closed.
///
/// # Errors
///
/// `Store` where the journal failed; else the fault of the end.
fn outcome<'f>(
    alloc: Global,
    worked: Journaled,
    closed: Result<RunEnd, Fault<'f>>,
) -> Result<RunEnd, Trouble<'f>> {
    match worked.ending {
        Ending::NoThreads => Err(Trouble::Engine(Fault::Memory)),
        Ending::Failed(error) => Err(Trouble::Store {
            line: format!(in alloc; "{error}")?,
            status: STORE_FAILED,
        }),
        Ending::Written => match closed {
            Ok(_) if worked.cut > 0 => Ok(RunEnd::Undelivered),
            Ok(RunEnd::Undelivered) => Ok(RunEnd::Stored),
            Ok(end) => Ok(end),
            Err(fault) => Err(Trouble::Engine(fault)),
        },
    }
}

/// A book that is shared among workers and a journal.
#[derive(Drop)]
struct Stage<A: Journaling, S: Store> {
    shared: Shared<A, ServiceRows>,
    workers: Workers<A>,
    journal: Journal<A, S>,
}

/// The journal of a book that was shared among new desks just now, at the last of these. `next` is the index of the book's next
/// entry, and `prunings` the number of prunings that were made before.
///
/// # Errors
///
/// Where there is no desk, or the plan has more owners than can be counted.
fn journal_at<A: Journaling, S: Store + Drop>(
    alloc: Global,
    seated: &mut Vec<Desk<A>>,
    desks: usize,
    next: usize,
    prunings: u32,
    plan: &Arc<Plan>,
    store: EventStore<S>,
) -> Result<Journal<A, S>, AllocError>
    requires seats { map (λ d. d.seat) seated.old.items ≡ new_seats 0 desks }
    requires next { next ≡ next_place A.opening }
    requires prunings { prunings ≡ A.opening.opening.prunings }
    requires durable { AreDurable (S.Store.view store.store) (S.Store.recovers store.store) A.before }
    requires sees { IsClean (S.Store.view store.store)
        → records_in (S.Store.view store.store).trees ≡ A.before }
{
    let plan = Arc::try_clone(plan)?;
    let reader = JournalReader::new(journal_desk(seated, desks)?, next, prunings);
    Ok(Journal::new(alloc, reader, store, plan))
}

/// Shares a book among this number of desks, of which the last is the journal's.
///
/// # Errors
///
/// Where memory is refused, or the plan has more owners than can be counted.
fn stage_of<A: Journaling, S: Store + Drop>(
    alloc: Global,
    listeners: Listeners,
    book: Book<ServiceRows>,
    store: EventStore<S>,
    plan: &Arc<Plan>,
    desks: usize,
    log: BlankLog<LogEntry>,
) -> Result<Stage<A, S>, AllocError>
    requires opening { book ≡ A.opening }
    requires log { log.table.shared.table_id ≡ A.table }
    requires counts { counted book ≡ A.counts }
    requires first { next_place book ≡ A.first }
    requires channels { length (plan_in_force book).channels ≡ A.channels }
    requires seats { (A.desks ≡ desks) × (A.stations ≡ 32) }
    requires durable { AreDurable (S.Store.view store.store) (S.Store.recovers store.store) A.before }
    requires sees { IsClean (S.Store.view store.store)
        → records_in (S.Store.view store.store).trees ≡ A.before }
{
    let (next, prunings) = (book.len(), book.prunings());
    let opened = Shared::<A, ServiceRows>::new(alloc, book, desks, POSTS as usize, log);
    let Ok(
        Opened {
            shared,
            desks: mut seated,
            stations,
        },
    ) = opened
    else {
        return Err(AllocError);
    };
    let journal = journal_at(alloc, &mut seated, desks, next, prunings, plan, store)?;
    Ok(Stage {
        shared,
        workers: Workers::new(alloc, listeners, seated, stations)?,
        journal,
    })
}

/// Shares the book, runs all workers over it and the journal beside them, closes it, and prints the statistics. Returns how the
/// service ended, and the store.
fn serve_stored<'f, A: Journaling + Send + Sync, S: Store + Drop, H: Crew + Threads + Sync>(
    rt: &HostRuntime,
    handle: &H,
    settings: &Settings,
    beginning: Beginning<S>,
    desks: usize,
    log: BlankLog<LogEntry>,
) -> Result<(Result<RunEnd, Trouble<'f>>, EventStore<S>), Trouble<'f>>
    requires opening { beginning.book ≡ A.opening }
    requires log { log.table.shared.table_id ≡ A.table }
    requires counts { counted beginning.book ≡ A.counts }
    requires first { next_place beginning.book ≡ A.first }
    requires channels { length (plan_in_force beginning.book).channels ≡ A.channels }
    requires seats { (A.desks ≡ desks) × (A.stations ≡ 32) }
    requires durable { AreDurable (S.Store.view beginning.store.store)
        (S.Store.recovers beginning.store.store) A.before }
    requires sees { IsClean (S.Store.view beginning.store.store)
        → records_in (S.Store.view beginning.store.store).trees ≡ A.before }
    requires committed { (store : S) (changes : List Change)
        → AreHeld (S.Store.view store) (S.Store.recovers store) A.before changes
        → A.committed changes }
{
    let alloc = rt.alloc();
    let Beginning {
        listeners,
        book,
        store,
        connections,
    } = beginning;
    let plan = Arc::try_clone(book.plan())?;
    let Stage {
        shared,
        workers,
        mut journal,
    } = stage_of::<A, S>(alloc, listeners, book, store, &plan, desks, log)?;
    let worked = run_journaled(
        rt,
        handle,
        settings,
        &shared,
        &workers,
        connections,
        &plan,
        &mut journal,
    );
    let (own, store) = journal.into_parts();
    let closed = end(rt, handle, shared, workers, Some(own));
    Ok((outcome(alloc, worked, closed), store))
}

/// Why the store can't be used, as the program reports it.
fn trouble_of<'f>(alloc: Global, error: &StartError<'_>) -> Result<Trouble<'f>, AllocError> {
    Ok(Trouble::Store {
        line: format!(in alloc; "{error}")?,
        status: error.fault.status(),
    })
}

/// Logs for each destination of the plan in force how many messages are still to be delivered to it, where any are.
fn log_waiting<H: Log>(handle: &H, book: &Book<ServiceRows>) {
    let plan = book.plan();
    for d in 0..plan.destinations() {
        let waiting = book.queue_len(d);
        if waiting > 0
            && let Some(destination) = plan.destination(d)
        {
            let destination = destination.name();
            info!(handle; destination, waiting; "messages wait since before the start");
        }
    }
}

/// Logs that the plan of the command line is not taken, and why.
fn log_kept_plan<H: Log>(handle: &H, deployments: u32, refusal: &DeployRefusal) {
    warn!(handle; target: "always", deployments; "the plan of the command line is not taken, and the one in the store stays in force: {refusal}");
}

/// Logs what the end of the last process interrupted: how many attempts, and each message that failed by that.
fn log_interrupted<H: Log>(handle: &H, interrupted: usize, failed: &[Ticket]) {
    if interrupted > 0 {
        warn!(handle; target: "always", interrupted; "attempts to deliver were interrupted by the end of the last process: they are counted and made again, so a destination may get a message twice");
    }
    for ticket in failed {
        let (message, queue) = (ticket.number, ticket.destination);
        warn!(handle; target: "always", message, queue; "message failed: its last attempt was interrupted, so it may or may not have been delivered");
    }
}

/// Logs what was found in the store, which was opened in this many seconds: how much was recovered, which messages wait, which plan
/// is in force, and what the end of the last process interrupted.
fn log_found<S: Store, H: Log>(
    handle: &H,
    folder: &str,
    seconds: u64,
    found: &Started<S, ServiceRows>,
) {
    let book = &found.book;
    let (store, records, messages) = (Escaped(folder), found.records, book.message_count());
    info!(handle; store:% = store, records, messages, seconds; "the store is open");
    log_waiting(handle, book);
    if let Some(refusal) = &found.kept_plan {
        log_kept_plan(handle, book.deployments(), refusal);
    }
    log_interrupted(handle, found.interrupted, &found.failed);
}

/// The settings of a start, where the plan that it begins with may be that of the store.
fn began_with<'a>(settings: &Settings<'a>, is_plan_kept: bool) -> Settings<'a> {
    let plan = if is_plan_kept {
        Origin::Store
    } else {
        settings.plan
    };
    Settings { plan, ..*settings }
}

/// Starts from the store in a folder.
///
/// # Errors
///
/// `Store` where it can't be used, `Memory`.
fn open_store<'f, H: Crew>(
    rt: &HostRuntime,
    handle: &H,
    folder: &str,
    plan: &Arc<Plan>,
    settings: &Settings,
) -> Result<ServiceStore<ServiceRows>, Trouble<'f>>
    ensures durable { IfOk result (λ s. AreDurable (view s.started.store.store)
        (recovers s.started.store.store) (records_in (view s.started.store.store).trees)) }
{
    let request = StartRequest {
        plan: Arc::try_clone(plan)?,
        events_max: settings.events.clamp(1, EVENTS_MAX),
        version: VERSION,
        now: nearest(seconds_now(handle)),
    };
    match start_in_folder(rt, folder, request) {
        Ok(opened) => Ok(opened),
        Err(error) => Err(trouble_of(rt.alloc(), &error)?),
    }
}

/// The listeners of a service, and among how many desks its book is shared.
#[derive(Drop)]
struct Listening {
    listeners: Listeners,
    desks: usize,
}

/// Listens by the plan in force of a book that was started.
///
/// # Errors
///
/// `Limit` where the connections of all channels are more than 9,999; `Listen` of the first channel that can't listen; `Memory`.
fn listen<'f, S: Store, H: Crew>(
    rt: &HostRuntime,
    handle: &H,
    settings: &Settings,
    started: &Started<S, ServiceRows>,
) -> Result<Listening, Fault<'f>> {
    let plan = started.book.plan();
    let connections = connections_of(plan, settings.connections)?;
    log_descriptors(handle, plan, connections, settings);
    Ok(Listening {
        listeners: open_listeners(rt, handle, plan, settings)?,
        // Two desks more are the operator's and the journal's.
        desks: connections.saturating_add(2) as usize,
    })
}

/// Serves from a book that was started in the store of a folder. Returns how the service ended, and the store.
fn serve_started<'f, S: Store + Drop, H: Crew + Threads + Sync>(
    rt: &HostRuntime,
    handle: &H,
    settings: &Settings,
    started: Started<S, ServiceRows>,
    numbers: ConnectionNumbers,
    mut witness: Witness,
    holds: StoredHolds,
    log: BlankLog<LogEntry>,
) -> Result<(Result<RunEnd, Trouble<'f>>, EventStore<S>), Trouble<'f>>
    requires durable { AreDurable (S.Store.view started.store.store)
        (S.Store.recovers started.store.store) (records_in (S.Store.view started.store.store).trees) }
{
    let settings = &began_with(settings, started.kept_plan.is_some());
    let Listening { listeners, desks } = listen(rt, handle, settings, &started)?;
    let Started {
        book,
        store,
        last_second,
        appended,
        ..
    } = started;
    witness.count_appended(appended);
    let beginning = Beginning {
        listeners,
        book,
        store,
        connections: Connections {
            numbers,
            witness,
            last_second,
            holds,
        },
    };
    serve_stored::<Brand, S, H>(rt, handle, settings, beginning, desks, log)
}

/// Closes the store in a folder in order, and logs where that fails.
fn close<H: Log>(handle: &H, folder: &str, store: EventStore<FileStore<File>>) {
    if let Err(error) = close_store(store) {
        let store = Escaped(folder);
        warn!(handle; target: "always", store:% = store; "the store is not closed in order: {error}");
    }
}

/// Logs how many messages were in flight when the last process ended, and wait again.
fn log_given_back<H: Log>(handle: &H, flights: Flights) {
    match flights {
        Flights::None => {}
        Flights::GivenBack(messages) => {
            warn!(handle; target: "always", messages; "messages were in flight at the end of the last process: they wait again, and that attempt is not counted, so a destination may get a message twice");
        }
    }
}

/// Logs that a store goes on in a new file, or why it doesn't though it is long or messages were in flight.
fn log_next<H: Log>(handle: &H, folder: &str, next: NextFile) {
    let store = Escaped(folder);
    match next {
        NextFile::Kept => {}
        NextFile::Begun { archived, flights } => {
            let archived = Escaped(&archived);
            info!(handle; store:% = store, archived:% = archived; "the store goes on in a new file, and the one before it is kept");
            log_given_back(handle, flights);
        }
        NextFile::Stayed(error) => {
            warn!(handle; target: "always", store:% = store; "the store goes on in its old file, since no new one was begun: {error}");
        }
    }
}

/// Serves from the store in a folder, which was opened in this many seconds, and closes it.
fn serve_found<'f, H: Crew + Threads + Sync>(
    rt: &HostRuntime,
    handle: &H,
    folder: &str,
    settings: &Settings,
    seconds: u64,
    found: ServiceStore<ServiceRows>,
    log: BlankLog<LogEntry>,
) -> Result<RunEnd, Trouble<'f>>
    requires durable { AreDurable (view found.started.store.store)
        (recovers found.started.store.store) (records_in (view found.started.store.store).trees) }
{
    let ServiceStore {
        started,
        next,
        connections,
        witness,
        holds,
    } = found;
    log_next(handle, folder, next);
    log_found(handle, folder, seconds, &started);
    match serve_started(
        rt,
        handle,
        settings,
        started,
        connections,
        witness,
        holds,
        log,
    ) {
        Ok((ended, store)) => {
            close(handle, folder, store);
            ended
        }
        Err(trouble) => Err(trouble),
    }
}

/// Runs the service by a plan, with its history in the store of a folder.
///
/// # Errors
///
/// `Store` where the store can't be used, or has failed; those of an engine.
pub(crate) fn run_stored<'f, H: Crew + Threads + Sync>(
    rt: &HostRuntime,
    handle: &H,
    path: &str,
    folder: &str,
    plan: &Arc<Plan>,
    settings: &Settings,
) -> Result<RunEnd, Trouble<'f>> {
    log_start(handle, path, plan, settings);
    let log = BlankLog::new(rt.alloc())?;
    let began = seconds_now(handle);
    match open_store(rt, handle, folder, plan, settings) {
        Ok(found) => {
            let seconds = seconds_now(handle).saturating_sub(began);
            serve_found(rt, handle, folder, settings, seconds, found, log)
        }
        Err(trouble) => Err(trouble),
    }
}
