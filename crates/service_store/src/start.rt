//! A book is started from what a store holds.

ghost use Rattle.std.specs.Prelude.{◌≡◌, ◌≢◌, ◌≤◌, ◌-◌, ◌+◌, ◌↔◌, [], None, Some, Err, IfOk, IfErr, IfSome, IsNone, OnOk, length};
ghost use Rattle.std.specs.Arc.{arc_value};
ghost use Rattle.sqlite_trees.specs.View.{IsClean, doubt};
ghost use Rattle.std.specs.List.{filter_map};
ghost use Rattle.event_log.specs.History.{History, plan_in_force};
ghost use Rattle.event_store.specs.Records.{AreDurable, records_in};
ghost use Rattle.book_replay.specs.Replay.{AreReplayed, after_records};
ghost use Rattle.book_recovery.specs.Interrupting.{failed_in};
ghost use Rattle.book_recovery.specs.inner.File.{IsRecovered, bodies_of, last_connection_in, last_second_in};
ghost use Rattle.service_store.specs.inner.Faults.{IsBookFailure};
ghost use Rattle.service_store.specs.inner.Starting.{AreBooked, AreReadOf, IsCaughtUp, IsPlanned, bodies_in, settlements};

use crate::fault::BookFault;
use crate::keep::{keep_first, keep_records};
use book_core::{Book, BookRows, DeployRefusal, Ticket};
use book_recovery::{
    NewFile, Recovered, SettledFlights, VERSION_MAX, adopt_plan, begin_file, recover,
    settle_interrupted,
};
use event_records::Record;
use event_store::{EventStore, Opened, StoredRecord};
use hl7_head::Moment;
use plan_text::Plan;
use sqlite_trees::store::Store;
use std::alloc::{AllocError, Global};
use std::hash::RandomState;
use std::sync::Arc;

/// What a start is made with.
#[derive(Drop)]
pub struct StartRequest<'a> {
    /// The plan of the command line.
    pub plan: Arc<Plan>,
    /// The most entries that the book may hold, at least 1 and at most `EVENTS_MAX`.
    pub events_max: u32,
    /// The version of the program, at most `VERSION_MAX` bytes.
    pub version: &'a str,
    /// The moment of the start.
    pub now: Moment,
}

/// What a start does with the attempts that were in flight when the last process ended.
#[derive(Clone, Copy, Debug, PartialEq, Eq)]
pub enum OnFlights {
    /// They stay in flight: where there are any, the book is to go on in a new file, in which they wait again.
    Leave,
    /// They are settled as ones to be made again, so that each of them counts.
    Settle,
}

/// A book that was started, and its store.
#[derive(Drop)]
pub struct Started<S: Store, B: BookRows> {
    /// The book.
    pub book: Book<B>,
    /// The store, which holds what the book was recovered from, and nothing else.
    pub store: EventStore<S>,
    /// The later of the last moment in the store and the moment of the start, in seconds since 1970.
    pub last_second: u64,
    /// How many records were behind the first when the store was opened: 0 for a new store.
    pub records: usize,
    /// How many records were appended at the start, the first of a new store too.
    pub appended: usize,
    /// The highest number of a connection that a message can have come over, if one came.
    pub last_connection: Option<u32>,
    /// How many attempts that were in flight were settled as ones to be made again.
    pub interrupted: usize,
    /// Those of them that were the last: their messages have failed, though they may never have been delivered.
    pub failed: Vec<Ticket>,
    /// Why the plan of the command line is not in force, where it isn't: the book refuses it, and goes on with the plan of the store.
    pub kept_plan: Option<DeployRefusal>,
}

/// What the book of a store was brought up to date by.
#[derive(Drop)]
struct CaughtUp {
    records: Vec<Record>,
    interrupted: usize,
    failed: Vec<Ticket>,
    kept_plan: Option<DeployRefusal>,
}

/// How many records a store had when it was opened.
pub(crate) fn found<S: Store>(opened: &Opened<S>) -> u64 {
    opened.1.len() as u64
}

/// A moment in milliseconds since 1970.
pub(crate) fn millis(now: Moment) -> i64 {
    now.secs() as i64 * 1_000
}

/// The later of a moment and this number of seconds since 1970. A number that is no moment leaves the moment as it is.
pub(crate) fn later(now: Moment, second: u64) -> Moment
    ensures { now ≤ result }
{
    match i64::try_from(second) {
        Ok(seconds) if second > now.secs() => Moment::of_unix(seconds).unwrap_or(now),
        _ => now,
    }
}

/// Puts the plan of the command line in force, unless the book refuses it. Returns the records of that, and the refusal.
fn adopt<B: BookRows>(
    alloc: Global,
    book: &mut Book<B>,
    plan: Arc<Plan>,
) -> Result<(Vec<Record>, Option<DeployRefusal>), AllocError>
    ensures booked { IfOk result (λ r. AreBooked book.old book.new r.0.items) }
    ensures planned { IfOk result (λ r. IsPlanned (arc_value plan) book.old book.new r.1) }
{
    let mut records = Vec::new(alloc);
    match adopt_plan(alloc, book, plan) {
        Ok(None) => Ok((records, None)),
        Ok(Some(item)) => {
            records.push(item)?;
            Ok((records, None))
        }
        Err(DeployRefusal::NoMemory) => Err(AllocError),
        Err(refusal) => Ok((records, Some(refusal))),
    }
}

/// Leaves the attempts that are in flight, or settles them as ones to be made again.
fn settle<B: BookRows>(
    alloc: Global,
    book: &mut Book<B>,
    now: Moment,
    on_flights: OnFlights,
) -> Result<SettledFlights, AllocError>
    ensures flights { OnOk result (book.new ≡ after_records book.old (settlements on_flights now book.old)) }
    ensures history { IfOk result (λ found. book.new ≡ after_records book.old found.records.items) }
    ensures replayed { IfOk result (λ found. AreReplayed book.old found.records.items) }
    ensures failed { IfOk result (λ found. found.failed.items ≡ filter_map (failed_in book.new) found.records.items) }
    ensures left { IfOk result (λ found. on_flights ≡ OnFlights.Leave → found.records.items ≡ []) }
{
    match on_flights {
        OnFlights::Leave => Ok(SettledFlights {
            records: Vec::new(alloc),
            failed: Vec::new(alloc),
        }),
        OnFlights::Settle => settle_interrupted(alloc, book, now),
    }
}

/// Puts the plan of the command line in force, unless the book refuses it, and leaves or settles the attempts that are in flight.
fn catch_up<B: BookRows>(
    alloc: Global,
    book: &mut Book<B>,
    plan: Arc<Plan>,
    now: Moment,
    on_flights: OnFlights,
) -> Result<CaughtUp, AllocError>
    ensures booked { IfOk result (λ c. AreBooked book.old book.new c.records.items) }
    ensures caught_up { IfOk result (λ c. IsCaughtUp on_flights (arc_value plan) now book.old book.new
        c.kept_plan c.interrupted c.failed.items) }
    ensures left { IfOk result (λ c. on_flights ≡ OnFlights.Leave → c.interrupted ≡ 0) }
{
    let (mut records, kept_plan) = adopt(alloc, book, plan)?;
    let SettledFlights {
        records: mut settlements,
        failed,
    } = settle(alloc, book, now, on_flights)?;
    let interrupted = settlements.len();
    records.append(&mut settlements)?;
    Ok(CaughtUp {
        records,
        interrupted,
        failed,
        kept_plan,
    })
}

/// Begins a store that has no record: its header is its first record, and is committed.
fn begin<S: Store + Drop, B: BookRows + Drop>(
    alloc: Global,
    mut events: EventStore<S>,
    request: StartRequest<'_>,
    hasher: RandomState,
) -> Result<Started<S, B>, BookFault>
    requires some { 1 ≤ request.events_max }
    requires few { request.events_max ≤ 1000000 }
    requires version { length request.version.now ≤ VERSION_MAX }
    ensures recovered { IfOk result (λ s. IsClean (S.Store.view s.store.store)
        → bodies_in (S.Store.view events.store).trees ≡ []
        → IsRecovered (bodies_in (S.Store.view s.store.store).trees) s.book) }
    ensures durable { IfOk result (λ s. AreDurable (S.Store.view s.store.store)
        (S.Store.recovers s.store.store) (records_in (S.Store.view s.store.store).trees)) }
    ensures plan { IfOk result (λ s. plan_in_force s.book ≡ arc_value request.entry.plan) }
    ensures kept { IfOk result (λ s. s.kept_plan ≡ None) }
    ensures none { IfOk result (λ s. s.interrupted ≡ 0) }
    ensures bound { IfOk result (λ s. s.book.opening.events_max ≡ request.entry.events_max) }
    ensures records { IfOk result (λ s. s.records ≡ 0) }
    ensures connection { IfOk result (λ s. s.last_connection ≡ None) }
    ensures clean { IfOk result (λ s. doubt (S.Store.view events.store).is_clean
        ≤ doubt (S.Store.view s.store.store).is_clean) }
    ensures first { IfOk result (λ s. s.store.first ≡ events.first) }
    ensures failure { IfErr result (IsBookFailure []) }
{
    let StartRequest {
        plan,
        events_max,
        version,
        now,
    } = request;
    let NewFile { header, book } = begin_file(alloc, plan, events_max, version, hasher)?;
    keep_first(&mut events, "header", header.as_slice(), millis(now))?;
    Ok(Started {
        book,
        store: events,
        last_second: now.secs(),
        records: 0,
        appended: 1,
        last_connection: None,
        interrupted: 0,
        failed: Vec::new(alloc),
        kept_plan: None,
    })
}

/// The book of the rows of a store.
fn recover_rows<B: BookRows + Drop>(
    alloc: Global,
    rows: &[StoredRecord],
    hasher: RandomState,
) -> Result<Recovered<B>, BookFault>
    ensures recovered { IfOk result (λ r. IsRecovered (bodies_of rows.now) r.book) }
    ensures records { IfOk result (λ r. r.records + 1 ≡ length rows.now) }
    ensures connection { IfOk result (λ r. r.last_connection ≡ last_connection_in (bodies_of rows.now)) }
    ensures second { IfOk result (λ r. r.last_second ≡ last_second_in rows.now) }
    ensures failure { IfErr result (IsBookFailure (bodies_of rows.now)) }
{
    match recover::<B>(alloc, rows, hasher) {
        Ok(recovered) => Ok(recovered),
        Err(error) => Err(BookFault::of_recovery(alloc, error)),
    }
}

/// Goes on from the rows of a store.
fn resume<S: Store + Drop, B: BookRows + Drop>(
    alloc: Global,
    mut events: EventStore<S>,
    rows: &[StoredRecord],
    request: StartRequest<'_>,
    on_flights: OnFlights,
    hasher: RandomState,
) -> Result<Started<S, B>, BookFault>
    ensures recovered { IfOk result (λ s. IsClean (S.Store.view s.store.store)
        → bodies_in (S.Store.view events.store).trees ≡ bodies_of rows.now
        → IsRecovered (bodies_in (S.Store.view s.store.store).trees) s.book) }
    ensures durable { IfOk result (λ s. AreDurable (S.Store.view s.store.store)
        (S.Store.recovers s.store.store) (records_in (S.Store.view s.store.store).trees)) }
    ensures caught_up { IfOk result (λ s. (h : History) → IsRecovered (bodies_of rows.now) h
        → IsCaughtUp on_flights (arc_value request.entry.plan) request.entry.now h s.book s.kept_plan s.interrupted s.failed.items) }
    ensures left { IfOk result (λ s. on_flights ≡ OnFlights.Leave → s.interrupted ≡ 0) }
    ensures plan { IfOk result (λ s. (s.kept_plan ≡ None) ↔ (plan_in_force s.book ≡ arc_value request.entry.plan)) }
    ensures bound { IfOk result (λ s. (h : History) → IsRecovered (bodies_of rows.now) h
        → s.book.opening.events_max ≡ h.opening.events_max) }
    ensures records { IfOk result (λ s. s.records + 1 ≡ length rows.now) }
    ensures connection { IfOk result (λ s. s.last_connection ≡ last_connection_in (bodies_of rows.now)) }
    ensures second { IfOk result (λ s. last_second_in rows.now ≤ s.last_second) }
    ensures clean { IfOk result (λ s. doubt (S.Store.view events.store).is_clean
        ≤ doubt (S.Store.view s.store.store).is_clean) }
    ensures first { IfOk result (λ s. s.store.first ≡ events.first) }
    ensures failure { IfErr result (IsBookFailure (bodies_of rows.now)) }
{
    let StartRequest { plan, now, .. } = request;
    let Recovered {
        mut book,
        records,
        last_connection,
        last_second,
    } = recover_rows::<B>(alloc, rows, hasher)?;
    let now = later(now, last_second);
    let caught_up = catch_up(alloc, &mut book, plan, now, on_flights)?;
    let records_kept = caught_up.records.as_slice();
    match keep_records(alloc, &mut events, &book, records_kept, millis(now)) {
        Ok(()) => {}
        Err(fault) => return Err(fault),
    }
    let CaughtUp {
        records: added,
        interrupted,
        failed,
        kept_plan,
    } = caught_up;
    Ok(Started {
        book,
        store: events,
        last_second: last_second.max(now.secs()),
        records,
        appended: added.len(),
        last_connection,
        interrupted,
        failed,
        kept_plan,
    })
}

/// Starts the book of a store that was opened just now. A store with no record is begun: its header becomes its first record. From
/// any other the book is recovered; then the plan of the command line is put in force, unless the book refuses it, the attempts that
/// were in flight are left or settled, and the records of that are appended. What the store holds is committed.
///
/// # Errors
///
/// Where the book can't be recovered, it may hold another number of entries, or the store can't be written. The file is as it was
/// then, or begun.
pub fn start_book<S: Store + Drop, B: BookRows + Drop>(
    alloc: Global,
    opened: Opened<S>,
    request: StartRequest<'_>,
    on_flights: OnFlights,
    hasher: RandomState,
) -> Result<Started<S, B>, BookFault>
    requires some { 1 ≤ request.events_max }
    requires few { request.events_max ≤ 1000000 }
    requires version { length request.version.now ≤ VERSION_MAX }

    // Where the rows are what the store had, the book is recovered from what the store has now, and a crash leaves just that.
    ensures recovered { IfOk result (λ s. AreReadOf (S.Store.view opened.0.store) opened.1.items
        → IsClean (S.Store.view s.store.store)
        → IsRecovered (bodies_in (S.Store.view s.store.store).trees) s.book) }
    ensures durable { IfOk result (λ s. AreDurable (S.Store.view s.store.store)
        (S.Store.recovers s.store.store) (records_in (S.Store.view s.store.store).trees)) }

    // From the book of the rows, the plan is put in force or kept, and all attempts in flight are left or settled.
    ensures caught_up { IfOk result (λ s. (h : History) → IsRecovered (bodies_of opened.1.items) h
        → IsCaughtUp on_flights (arc_value request.entry.plan) request.entry.now h s.book s.kept_plan s.interrupted s.failed.items) }
    ensures left { IfOk result (λ s. on_flights ≡ OnFlights.Leave → s.interrupted ≡ 0) }
    ensures plan { IfOk result (λ s. (s.kept_plan ≡ None) ↔ (plan_in_force s.book ≡ arc_value request.entry.plan)) }
    ensures bound { IfOk result (λ s. (h : History) → IsRecovered (bodies_of opened.1.items) h
        → s.book.opening.events_max ≡ h.opening.events_max) }
    ensures new_bound { IfOk result (λ s. opened.1.items ≡ []
        → s.book.opening.events_max ≡ request.entry.events_max) }

    ensures records { IfOk result (λ s. s.records ≡ length opened.1.items - 1) }
    ensures connection { IfOk result (λ s. s.last_connection ≡ last_connection_in (bodies_of opened.1.items)) }
    ensures second { IfOk result (λ s. last_second_in opened.1.items ≤ s.last_second) }
    ensures clean { IfOk result (λ s. doubt (S.Store.view opened.0.store).is_clean
        ≤ doubt (S.Store.view s.store.store).is_clean) }
    ensures first { IfOk result (λ s. s.store.first ≡ opened.0.first) }
    ensures failure { IfErr result (IsBookFailure (bodies_of opened.1.items)) }
{
    let (events, rows) = opened;
    if rows.is_empty() {
        match begin(alloc, events, request, hasher) {
            Ok(started) => return Ok(started),
            Err(fault) => return Err(fault),
        }
    }
    match resume(alloc, events, rows.as_slice(), request, on_flights, hasher) {
        Ok(started) => Ok(started),
        Err(fault) => Err(fault),
    }
}

/// Why a book with this bound of its entries isn't started, where the command line asks for another.
fn other_bound(bound: u32, asked: u32) -> Option<BookFault>
    ensures none { IsNone result ↔ (bound ≡ asked) }
    ensures other { IfSome result (λ fault. fault ≡ BookFault.OtherBound bound asked) }
{
    if bound == asked {
        return None;
    }
    Some(BookFault::OtherBound { bound, asked })
}

/// A book that was started from a new file, with the number of records that were found in the old one, where it may hold as many
/// entries as the command line asks for.
///
/// # Errors
///
/// `OtherBound` where it may hold another number of entries.
pub(crate) fn of_bound<S: Store + Drop, B: BookRows + Drop>(
    started: Started<S, B>,
    records: usize,
    asked: u32,
) -> Result<Started<S, B>, BookFault>
    ensures same { IfOk result (λ s. s ≡ record started { records = records }) }
    ensures bound { OnOk result (started.book.opening.events_max ≡ asked) }
    ensures other { IfErr result (λ fault.
        fault ≡ BookFault.OtherBound started.book.opening.events_max asked) }
{
    if let Some(fault) = other_bound(started.book.events_max(), asked) {
        return Err(fault);
    }
    let Started {
        book,
        store,
        last_second,
        appended,
        last_connection,
        interrupted,
        failed,
        kept_plan,
        ..
    } = started;
    Ok(Started {
        book,
        store,
        last_second,
        records,
        appended,
        last_connection,
        interrupted,
        failed,
        kept_plan,
    })
}
