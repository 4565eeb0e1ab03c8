//! `run`: connections of all channels, and deliveries to all destinations, over one shared book.

ghost use Rattle.std.specs.Prelude.{◌≡◌, ◌+◌, ◌≤◌, ◌⊎◌, Err, IfOk, IfSome, List, Ok, length, string_bytes};
ghost use Rattle.std.specs.Option.{option_copied};
ghost use Rattle.event_log.specs.History.{next_place, plan_in_force};
ghost use Rattle.event_log.specs.Counting.{counted};
ghost use Rattle.delivery_worker.specs.Sent.{IsTraced, StationWork};
ghost use Rattle.engine_report.specs.Findings.{Concludes, last_told, receipts_in};
ghost use Rattle.engine_report.specs.Lines.{lines_of_closed};

use crate::commands::devices::{Devices, listen_faults, open_devices};
use crate::commands::{EngineBook, EngineRows, warned_shared_plan};
use crate::handle::Handle;
use book_core::EVENTS_MAX;
use book_lock::{Closed, LogEntry, Opened, Shared, Sharing};
use conn_worker::{ServeReport, Steady};
use delivery_worker::{FixedWay, Link, TcpLink};
use descriptors::allowed;
use engine_journal::{Journal, Repeats};
use engine_report::{
    Fault, add_finding, connections_of, descriptors_of, find, hasher, statistics_text,
};
use engine_workers::{Door, Finished, RunEnd, TcpDoor, Workers, close_book, run_workers};
use ghost_log::BlankLog;
use log::{Log, warn};
use plan_text::Plan;
use std::alloc::{AllocError, Global};
use std::marker::Brand;
use std::sync::{Arc, Mutex};

/// How the work ended: the book, unless shares of it are missing, the result of serving each connection, and a fault for
/// each channel whose door failed.
#[derive(Drop)]
struct Ended<'f> {
    closed: Option<Closed<EngineRows>>,
    served: Vec<ServeReport>,
    failed: Vec<Fault<'f>>,
}

/// Takes the book out of its lock, once the workers have ended. The messages of a closed book are traced: each arrival has
/// one of the receipts, and each delivered message was sent.
fn close<'f, A: Sharing, D: Door + Drop, L: Link + Drop>(
    alloc: Global,
    plan: &Plan,
    shared: Shared<A, EngineRows>,
    worked: Finished<A, D, L>,
) -> Result<Ended<'f>, AllocError>
    ensures opening { IfOk result (λ ended. IfSome ended.closed (λ closed. (closed.opening ≡ A.counts) × (closed.first ≡ A.first))) }
    ensures traced { IfOk result (λ ended. IfSome ended.closed (λ closed.
        ∥ ((works : List (StationWork A.opening)) × IsTraced A.opening
        (receipts_in ended.served.items) works closed.book) ∥₁)) }
{
    let failed = listen_faults(alloc, plan, &worked.doors)?;
    let RunEnd { closed, served, .. } = close_book(alloc, shared, worked)?;
    Ok(Ended {
        closed,
        served,
        failed,
    })
}

/// Runs all workers over a shared book, and closes it.
fn work_at<'a, 'f, A: Sharing + Send + Sync, H: Handle>(
    rt: &'a H,
    alloc: Global,
    plan: &'a Plan,
    shared: Shared<A, EngineRows>,
    staff: Workers<A, TcpDoor<'a, H>, TcpLink<'a, H, FixedWay<'a>>>,
    accept: u32,
) -> Result<Ended<'f>, AllocError>
    ensures opening { IfOk result (λ ended. IfSome ended.closed (λ closed. (closed.opening ≡ A.counts) × (closed.first ≡ A.first))) }
    ensures traced { IfOk result (λ ended. IfSome ended.closed (λ closed.
        ∥ ((works : List (StationWork A.opening)) × IsTraced A.opening
        (receipts_in ended.served.items) works closed.book) ∥₁)) }
{
    match run_workers(rt, alloc, &shared, staff, accept, Steady::new(rt)) {
        Ok(worked) => close(alloc, plan, shared, worked),
        Err(_) => Err(AllocError),
    }
}

/// Shares the book, runs all workers over it, and closes it.
fn work<'a, 'f, A: Sharing + Send + Sync, H: Handle>(
    rt: &'a H,
    alloc: Global,
    plan: &'a Plan,
    book: EngineBook,
    devices: Devices<'a, H>,
    accept: u32,
    connections: u32,
    log: BlankLog<LogEntry>,
) -> Result<Ended<'f>, AllocError>
    requires opening { book ≡ A.opening }
    requires log { log.table.shared.table_id ≡ A.table }
    requires counts { counted book ≡ A.counts }
    requires first { next_place book ≡ A.first }
    requires channels { length (plan_in_force book).channels ≡ A.channels }
    requires seats { (A.desks ≡ connections) × (A.stations ≡ length plan.now.destinations) }
    ensures opening { IfOk result (λ ended. IfSome ended.closed (λ closed. (closed.opening ≡ A.counts) × (closed.first ≡ A.first))) }
    ensures traced { IfOk result (λ ended. IfSome ended.closed (λ closed.
        ∥ ((works : List (StationWork A.opening)) × IsTraced A.opening
        (receipts_in ended.served.items) works closed.book) ∥₁)) }
{
    let Devices { doors, links } = devices;
    let opened = Shared::<A, EngineRows>::new(
        alloc,
        book,
        connections as usize,
        plan.destinations() as usize,
        log,
    );
    match opened {
        Ok(
            Opened {
                shared,
                desks,
                stations,
            },
        ) => {
            let staff = Workers {
                desks,
                doors,
                stations,
                links,
            };
            work_at(rt, alloc, plan, shared, staff, accept)
        }
        Err(_) => Err(AllocError),
    }
}

/// The statistics that are printed: those of the closed book, which keeps its promise, and none where shares are missing.
fn statistics_of(
    alloc: Global,
    plan: &Plan,
    closed: Option<&Closed<EngineRows>>,
) -> Result<String, AllocError>
    ensures { IfOk result (λ text. string_bytes text ≡ lines_of_closed plan.now (option_copied closed.entry)) }
{
    match closed {
        Some(closed) => {
            let (_rows, counts) = closed.promise();
            statistics_text(alloc, plan, counts)
        }
        None => Ok(String::new(alloc)),
    }
}

/// Prints each fault but the last, which is returned to be printed by the caller; where there is none, returns what
/// was before.
fn tell_all<'f>(
    rt: &HostRuntime,
    before: Result<(), Fault<'f>>,
    faults: Vec<Fault<'f>>,
) -> Result<(), Fault<'f>>
    ensures { result ≡ last_told before.entry faults.entry.items }
{
    let mut last = before;
    for fault in faults {
        if let Err(told) = &last {
            let _ = eprintln!(rt; "{told}");
        }
        last = Err(fault);
    }
    last
}

/// Prints a text as it is, on standard error as well where standard output can't be written.
fn print_text<'f>(rt: &HostRuntime, text: &str) -> Result<(), Fault<'f>>
    ensures { (result ≡ Ok tt) ⊎ (result ≡ Err Fault.Write) }
{
    let Err(_) = print!(rt; "{text}") else {
        return Ok(());
    };
    let _ = eprint!(rt; "{text}");
    Err(Fault::Write)
}

/// Prints the result of a run whose book was closed so: the statistics, then each fault. The last one is returned.
///
/// Where memory is refused, nothing is printed.
fn tell<'f>(
    rt: &HostRuntime,
    alloc: Global,
    plan: &Plan,
    closed: Option<&Closed<EngineRows>>,
    served: Vec<ServeReport>,
    mut faults: Vec<Fault<'f>>,
) -> Result<(), Fault<'f>>
    ensures { (result ≡ Err Fault.Memory) ⊎ Concludes (option_copied closed.entry) served.items faults.entry.items result }
{
    let found = find(alloc, closed, served)?;
    add_finding(&mut faults, found)?;
    let text = statistics_of(alloc, plan, closed)?;
    let written = print_text(rt, &text);
    tell_all(rt, written, faults)
}

/// Prints the result of the run, as [`tell`] does.
fn conclude<'f>(
    rt: &HostRuntime,
    alloc: Global,
    plan: &Plan,
    ended: Ended<'f>,
) -> Result<(), Fault<'f>>
    ensures { (result ≡ Err Fault.Memory) ⊎ Concludes ended.entry.closed ended.entry.served.items ended.entry.failed.items result }
{
    let Ended {
        closed,
        served,
        failed,
    } = ended;
    tell(rt, alloc, plan, closed.as_ref(), served, failed)
}

/// Logs that the process may have fewer descriptors open than a run needs, where that is so.
fn log_descriptors<H: Log>(rt: &H, needed: u64) {
    if let Some(allowed) = allowed()
        && allowed < needed
    {
        warn!(rt; allowed, needed; "the limit of open files is below what all connections and destinations need");
    }
}

/// Listens for all channels of a plan, takes `accept` connections on each, serves them, and delivers what they bring, in a
/// book of at most `events` entries.
fn run_by<'a, 'f, H: Handle>(
    rt: &HostRuntime,
    handle: &'a H,
    plan: &'a Arc<Plan>,
    accept: u32,
    events: u32,
) -> Result<Ended<'f>, Fault<'f>>
    requires least { 1 ≤ accept }
    requires most { accept ≤ 9_999 }
    requires some { 1 ≤ events }
    requires few { events ≤ EVENTS_MAX }
{
    let alloc = rt.alloc();
    let connections = connections_of(plan, accept)?;
    log_descriptors(handle, descriptors_of(plan, connections));
    let hasher = hasher(rt)?;
    let shared_plan = Arc::try_clone(plan)?;
    let devices = open_devices(rt, handle, alloc, plan, accept)?;
    let book = EngineBook::new(alloc, shared_plan, events, hasher);
    let log = BlankLog::new(alloc)?;
    Ok(work::<Brand, _>(handle, alloc, plan, book, devices, accept, connections, log)?)
}

/// Listens for all channels of the plan in a file, takes `accept` connections on each, serves them, and delivers what they
/// bring, in a book of at most `events` entries. It ends after the last connection, once the queues are empty, and prints
/// the statistics. What its workers log goes through a journal: a line each, with UTC time and level.
///
/// # Errors
///
/// The last of the faults of the run, where there are several; those before it are printed.
pub(crate) fn run<'a, H: Handle + Eprint>(
    rt: &HostRuntime,
    handle: &H,
    path: &'a str,
    accept: u32,
    events: u32,
) -> Result<(), Fault<'a>>
    requires least { 1 ≤ accept }
    requires most { accept ≤ 9_999 }
    requires some { 1 ≤ events }
    requires few { events ≤ EVENTS_MAX }
{
    let alloc = rt.alloc();
    let plan = warned_shared_plan(rt, path, events)?;
    let repeats = Mutex::new(Repeats::new(alloc)?);
    let journal = Journal::new(*handle, &repeats);
    let ended = run_by(rt, &journal, &plan, accept, events);
    journal.finish();
    conclude(rt, alloc, &plan, ended?)
}
