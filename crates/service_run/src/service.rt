//! The service, from its start to its end.

ghost use Rattle.std.specs.Prelude.{◌≡◌, ◌+◌, length};
ghost use Rattle.event_log.specs.History.{next_place, plan_in_force};
ghost use Rattle.event_log.specs.Counting.{counted};

use crate::ending::{end, name_left};
use crate::figures::Watch;
use crate::listeners::{Listeners, open_listeners};
use crate::settings::Settings;
use crate::stored::run_stored;
use crate::threads::work;
use crate::workers::Workers;
use book_core::{Book, EVENTS_MAX};
use book_lock::{LogEntry, Opened, Shared, Sharing};
use descriptors::allowed;
use engine_journal::{Journal, Outbox, Repeats};
use engine_report::{Fault, Trouble, connections_of, descriptors_of, hasher};
use ghost_log::BlankLog;
use log::{Log, info, warn};
use log_text::Escaped;
use plan_text::Plan;
use service_web::SOCKETS;
use service_workers::{Crew, History, ServiceRows, Site};
use std::alloc::AllocError;
use std::marker::Brand;
use std::sync::{Arc, Mutex};
use std::thread;
use std::thread::{Builder, Threads};

/// How many queues there are. Each has a post, whatever the plan in force has, so that a destination that is deployed later
/// is delivered to at once.
pub(crate) const POSTS: u32 = 32;

/// The version that the log says at the start.
pub(crate) const VERSION: &str = "0.2.0";

/// The stack of the thread that writes the lines of the log, in bytes.
const WRITER_STACK_BYTES: usize = 262_144;

/// How the service ended.
#[derive(Clone, Copy, Debug, PartialEq, Eq)]
pub enum RunEnd {
    /// Each message was delivered or failed.
    Drained,
    /// Messages were left undelivered, or failed since their last attempt was cut off by the stop.
    Undelivered,
    /// Messages that are not delivered yet are in the store, for the next start.
    Stored,
}

/// What the workers of a service leave.
#[derive(Clone, Copy)]
struct Worked {
    /// Whether enough threads could be started.
    is_staffed: bool,
    /// How many messages failed since their last attempt was cut off by the stop.
    cut: u64,
}

/// Runs all workers over a shared book until they have ended, and names what is left undelivered.
fn run_workers<A: Sharing + Send + Sync, H: Crew + Threads + Sync>(
    rt: &HostRuntime,
    handle: &H,
    settings: &Settings,
    shared: &Shared<A, ServiceRows>,
    workers: &Workers<A>,
) -> Worked {
    let alloc = rt.alloc();
    let watch = Watch {
        started: seconds_now(handle),
        store: None,
    };
    let Settings {
        keep,
        idle,
        answer_text,
        ..
    } = *settings;
    let history = History::Memory;
    let site = Site::new(handle, alloc, shared, keep, idle, history, answer_text);
    let is_staffed = work(rt, handle, &site, workers, settings, watch);
    if let Ok(undelivered) = name_left(rt, &site)
        && undelivered > 0
    {
        warn!(handle; target: "always", undelivered; "messages are left undelivered");
    }
    Worked {
        is_staffed,
        cut: site.cut(),
    }
}

/// Shares the book, runs all workers over it, closes it, and prints the statistics.
fn serve<'f, A: Sharing + Send + Sync, H: Crew + Threads + Sync>(
    rt: &HostRuntime,
    handle: &H,
    settings: &Settings,
    listeners: Listeners,
    book: Book<ServiceRows>,
    desks: u32,
    log: BlankLog<LogEntry>,
) -> Result<RunEnd, Fault<'f>>
    requires opening { book ≡ A.opening }
    requires log { log.table.shared.table_id ≡ A.table }
    requires counts { counted book ≡ A.counts }
    requires first { next_place book ≡ A.first }
    requires channels { length (plan_in_force book).channels ≡ A.channels }
    requires seats { (A.desks ≡ desks) × (A.stations ≡ 32) }
{
    let alloc = rt.alloc();
    let opened = Shared::<A, ServiceRows>::new(alloc, book, desks as usize, POSTS as usize, log);
    let Ok(
        Opened {
            shared,
            desks,
            stations,
        },
    ) = opened
    else {
        return Err(Fault::Memory);
    };
    let workers = Workers::new(alloc, listeners, desks, stations)?;
    let worked = run_workers(rt, handle, settings, &shared, &workers);
    let ended = end(rt, handle, shared, workers, None)?;
    if !worked.is_staffed {
        Err(Fault::Memory)
    } else if worked.cut > 0 {
        Ok(RunEnd::Undelivered)
    } else {
        Ok(ended)
    }
}

/// Seconds since 1970; 0 where the clock can't be read.
pub(crate) fn seconds_now<H: Crew>(handle: &H) -> u64 {
    match handle.since_1970() {
        Ok(since) => since.as_secs(),
        Err(_) => 0,
    }
}

/// Logs that the process may have fewer descriptors open than a service needs for a plan and this number of connections, where
/// that is so.
pub(crate) fn log_descriptors<H: Log>(
    handle: &H,
    plan: &Plan,
    connections: u32,
    settings: &Settings,
) {
    let unused_queues = POSTS.saturating_sub(plan.destinations());
    let sockets = if settings.http.is_some() {
        SOCKETS as u64
    } else {
        0
    };
    let needed = descriptors_of(plan, connections)
        .saturating_add(u64::from(unused_queues))
        .saturating_add(sockets);
    if let Some(allowed) = allowed()
        && allowed < needed
    {
        warn!(handle; allowed, needed; "the limit of open files is below what all connections and destinations need");
    }
}

/// Logs what the service runs with.
pub(crate) fn log_start<H: Log>(handle: &H, path: &str, plan: &Plan, settings: &Settings) {
    let (channels, destinations) = (plan.channels(), plan.destinations());
    let Settings {
        connections,
        events,
        keep,
        idle,
        grace,
        show,
        ..
    } = *settings;
    let (version, path) = (VERSION, Escaped(path));
    info!(handle; version, plan:% = path, channels, destinations; "the service starts");
    info!(handle; connections, events, keep, idle, grace, show; "the bounds of the service");
}

/// Runs the service by a plan, with its book in memory.
fn run_in_memory<'f, H: Crew + Threads + Sync>(
    rt: &HostRuntime,
    handle: &H,
    path: &str,
    plan: &Arc<Plan>,
    settings: &Settings,
) -> Result<RunEnd, Fault<'f>> {
    let alloc = rt.alloc();
    let connections = connections_of(plan, settings.connections)?;
    log_start(handle, path, plan, settings);
    log_descriptors(handle, plan, connections, settings);
    info!(handle; "the book is in memory alone: what is not delivered when the process ends is lost");
    // One desk more is the operator's.
    let desks = connections.saturating_add(1);
    let hasher = hasher(rt)?;
    let listeners = open_listeners(rt, handle, plan, settings)?;
    let log = BlankLog::new(alloc)?;
    let shared_plan = Arc::try_clone(plan)?;
    // The words of the command line have these bounds already.
    let events = settings.events.clamp(1, EVENTS_MAX);
    let book = Book::<ServiceRows>::new(alloc, shared_plan, events, hasher);
    serve::<Brand, _>(rt, handle, settings, listeners, book, desks, log)
}

/// Runs the service by a plan, with its book in a store where a folder is given.
fn run_by<'f, H: Crew + Threads + Sync>(
    rt: &HostRuntime,
    handle: &H,
    path: &str,
    plan: &Arc<Plan>,
    settings: &Settings,
    folder: Option<&str>,
) -> Result<RunEnd, Trouble<'f>> {
    match folder {
        Some(folder) => run_stored(rt, handle, path, folder, plan, settings),
        None => Ok(run_in_memory(rt, handle, path, plan, settings)?),
    }
}

/// Runs the service by a plan, which was read from the file `path`, until it is stopped. Its history is kept in a store where the
/// folder of one is given, and else in memory. Lines of the log are written by a thread of their own.
///
/// # Errors
///
/// `Store` where the store can't be used, or has failed. Of an engine: `Limit` where the connections of all channels are more than
/// 9,999; `Random`; `Listen` of the first channel that can't listen; `Memory`; `Write` and `Audit` at the end.
pub fn run<'f, H: Crew + Threads + Eprint + Copy + Sync>(
    rt: &HostRuntime,
    handle: &H,
    path: &str,
    plan: Plan,
    settings: &Settings,
    folder: Option<&str>,
) -> Result<RunEnd, Trouble<'f>> {
    let alloc = rt.alloc();
    let plan = Arc::new(alloc, plan).map_err(AllocError::from)?;
    let repeats = Mutex::new(Repeats::new(alloc)?);
    let outbox = Outbox::new(alloc)?;
    let journal = Journal::buffered(*handle, &repeats, &outbox);
    let mut ended = Err(Trouble::Engine(Fault::Memory));
    let end = &mut ended;
    thread::scope(thread::scope_env(), handle, |scope| {
        let writer = Builder::new()
            .stack_size(WRITER_STACK_BYTES)
            .spawn_scoped(scope, || outbox.write_all(handle));
        if writer.is_ok() {
            *end = run_by(rt, &journal, path, &plan, settings, folder);
            journal.finish();
        }
        outbox.end(handle);
    });
    ended
}
