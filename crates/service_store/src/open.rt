//! The folder of a service's store is opened.

ghost use Rattle.std.specs.Prelude.{◌≡◌, ◌≢◌, ◌≤◌, ◌<◌, ◌+◌, ◌↔◌, [], None, IfOk, IfSome, length, true};
ghost use Rattle.std.specs.Arc.{arc_value};
ghost use Rattle.sqlite_store.specs.FileStore.{recovers, view};
ghost use Rattle.event_log.specs.History.{plan_in_force};
ghost use Rattle.sqlite_trees.specs.View.{IsClean};
ghost use Rattle.event_store.specs.Records.{AreDurable, records_in};
ghost use Rattle.book_recovery.specs.inner.File.{IsRecovered};
ghost use Rattle.service_store.specs.inner.Starting.{AreReadOf, bodies_in, is_followed, is_never_followed, may_be_next, may_stay};

use crate::close::{close_store, settled};
use crate::fault::{BookFault, NextError, StartError, StartFault};
use crate::folder::{make_folder, set_modes};
use crate::holds::StoredHolds;
use crate::next::{
    FoldError, Folded, NextRequest, PRUNINGS_FEW, RECORDS_LONG, begin_next, fold_book,
};
use crate::numbers::ConnectionNumbers;
use crate::start::{OnFlights, StartRequest, Started, found, later, millis, of_bound, start_book};
use crate::swap::{NEXT_NAME, finish_next, finish_swap, locked, swap};
use crate::witness::Witness;
use book_core::{Book, BookRows, EVENTS_MAX};
use book_recovery::{NextFault, VERSION_MAX, flying};
use event_file::{FileError, create_at, open_at};
use event_store::{EventStore, Opened};
use sqlite_std_file::{File, Unknown};
use sqlite_store::FileStore;
use sqlite_trees::error::StoreError;
use sqlite_trees::store::Store;
use std::hash::{BuildHasher, RandomState};
use std::io;
use std::sync::Arc;

/// The number of the first record.
pub(crate) const FIRST_RECORD: u64 = 1;

/// What became of the attempts that were in flight when the last process ended, in a new file.
#[derive(Clone, Copy, Debug, PartialEq, Eq)]
pub enum Flights {
    /// None was in flight.
    None,
    /// This many messages wait again, and the attempts are not counted.
    GivenBack(usize),
}

/// Whether the file of a store is followed by a new one at a start.
#[derive(Debug, Drop)]
pub enum NextFile {
    /// It isn't: it is not long, nothing was in flight, and its book may hold as many entries as the command line asks for.
    Kept,
    /// It is, and was moved to this path.
    Begun {
        /// The path.
        archived: String,
        /// What became of the attempts that were in flight.
        flights: Flights,
    },
    /// It is long, or attempts were in flight, and it goes on all the same: this is why no new file was begun. The attempts were
    /// settled as ones to be made again then.
    Stayed(NextError),
}

/// What a service starts from.
#[derive(Drop)]
pub struct ServiceStore<B: BookRows> {
    /// Its book, and its store.
    pub started: Started<FileStore<File>, B>,
    /// Whether its file is a new one, which goes on from the last.
    pub next: NextFile,
    /// The numbers of its connections, of which some are reserved.
    pub connections: ConnectionNumbers,
    /// How many records it has had at least.
    pub witness: Witness,
    /// The destinations that it holds.
    pub holds: StoredHolds,
}

impl StartFault {
    /// Why a path isn't opened.
    fn of_path(error: sqlite_std_file::OpenError) -> StartFault {
        match error {
            sqlite_std_file::OpenError::Io(error) => StartFault::of_io(error),
            sqlite_std_file::OpenError::OutOfMemory => StartFault::NoMemory,
            sqlite_std_file::OpenError::Busy => StartFault::InUse,
            sqlite_std_file::OpenError::HotJournal => StartFault::HotJournal,
        }
    }

    /// What the system said of a file.
    pub(crate) fn of_io(error: io::Error) -> StartFault {
        match error.kind() {
            io::ErrorKind::OutOfMemory => StartFault::NoMemory,
            _ => StartFault::File(error),
        }
    }

    /// Why a database isn't opened or made.
    fn of_database(error: sqlite_store::OpenError) -> StartFault {
        match error {
            sqlite_store::OpenError::OutOfMemory => StartFault::NoMemory,
            sqlite_store::OpenError::Io => StartFault::Disk(StoreError::Io),
            sqlite_store::OpenError::Full => StartFault::Disk(StoreError::Full),
            sqlite_store::OpenError::Refused => StartFault::NotAStore,
        }
    }

    /// Why the records of a database aren't read.
    fn of_records(error: event_store::OpenError) -> StartFault {
        match error {
            event_store::OpenError::Store(StoreError::OutOfMemory) => StartFault::NoMemory,
            event_store::OpenError::Store(StoreError::Corrupt)
            | event_store::OpenError::NotRecords => StartFault::NotAStore,
            event_store::OpenError::Store(error) => StartFault::Disk(error),
        }
    }
}

impl From<FileError> for StartFault {
    fn from(error: FileError) -> StartFault {
        match error {
            FileError::Path(error) => StartFault::of_path(error),
            FileError::OutOfMemory => StartFault::NoMemory,
            FileError::Database(error) => StartFault::of_database(error),
            FileError::Format(format) => StartFault::OtherFormat(format),
            FileError::Records(error) => StartFault::of_records(error),
        }
    }
}

impl NextError {
    /// Why a new file isn't made.
    fn of_file(error: FileError) -> NextError {
        match StartFault::from(error) {
            StartFault::NoMemory => NextError::NoMemory,
            StartFault::File(error) => NextError::File(error),
            StartFault::Disk(error) => NextError::Disk(error),
            _ => NextError::NotAStore,
        }
    }
}

/// Makes the file of a store, or opens it where a database is in it. A file whose making was cut off is made: what opens it first
/// would take it for a damaged one.
fn open_or_create(
    rt: &HostRuntime,
    path: &str,
    seed: u64,
) -> Result<Opened<FileStore<File>>, StartFault>
    ensures { IfOk result (λ r. AreReadOf (view r.0.store) r.1.items) }
{
    match create_at(rt, path, FIRST_RECORD, seed, Unknown) {
        Ok(created) => Ok(created),
        // A file that holds a database is left as it is.
        Err(FileError::Database(sqlite_store::OpenError::Refused)) => {
            match open_at(rt, path, FIRST_RECORD, seed, Unknown) {
                Ok(opened) => Ok(opened),
                Err(error) => Err(StartFault::from(error)),
            }
        }
        Err(error) => Err(StartFault::from(error)),
    }
}

/// Opens the file of the store in a folder, or makes it. What an earlier start has left half done is finished first.
fn open_events(
    rt: &HostRuntime,
    folder: &str,
    hasher: &RandomState,
) -> Result<Opened<FileStore<File>>, StartFault>
    ensures { IfOk result (λ r. AreReadOf (view r.0.store) r.1.items) }
{
    let Ok(path) = format!(in rt.alloc(); "{folder}/events.db") else {
        return Err(StartFault::NoMemory);
    };
    if let Err(error) = finish_swap(rt, folder) {
        return Err(StartFault::of_io(error));
    }
    let opened = open_or_create(rt, path.as_str(), hasher.hash_one(&0u8))?;
    match set_modes(rt, path.as_str()) {
        Ok(()) => Ok(opened),
        Err(error) => Err(StartFault::of_io(error)),
    }
}

/// The first numbers of connections, reserved.
fn reserved(
    rt: &HostRuntime,
    folder: &str,
    last_connection: Option<u32>,
) -> Result<ConnectionNumbers, StartFault>
    ensures reserved { IfOk result (λ numbers. numbers.first < numbers.end) }
    ensures unused { IfOk result (λ numbers. IfSome last_connection (λ last. last < numbers.first)) }
{
    let mut numbers = match ConnectionNumbers::open(rt, folder, last_connection) {
        Ok(numbers) => numbers,
        Err(fault) => return Err(StartFault::Numbers(fault)),
    };
    match numbers.reserve(rt) {
        Ok(_) => Ok(numbers),
        Err(fault) => Err(StartFault::Numbers(fault)),
    }
}

/// A store that was opened and started.
#[derive(Drop)]
struct Opening<B: BookRows> {
    started: Started<FileStore<File>, B>,
    witness: Witness,
    /// How many records were found in it.
    found: u64,
}

/// Opens the store in a folder, and starts its book.
fn open_book<B: BookRows + Drop>(
    rt: &HostRuntime,
    folder: &str,
    request: StartRequest<'_>,
    on_flights: OnFlights,
) -> Result<Opening<B>, StartFault>
    requires some { 1 ≤ request.events_max }
    requires few { request.events_max ≤ 1000000 }
    requires version { length request.version.now ≤ VERSION_MAX }
    ensures recovered { IfOk result (λ s. IsClean (view s.started.store.store)
        → IsRecovered (bodies_in (view s.started.store.store).trees) s.started.book) }
    ensures durable { IfOk result (λ s. AreDurable (view s.started.store.store)
        (recovers s.started.store.store) (records_in (view s.started.store.store).trees)) }
    ensures plan { IfOk result (λ s. (s.started.kept_plan ≡ None)
        ↔ (plan_in_force s.started.book ≡ arc_value request.entry.plan)) }
    ensures left { IfOk result (λ s. on_flights ≡ OnFlights.Leave → s.started.interrupted ≡ 0) }
{
    let (Ok(seeder), Ok(hasher)) = (RandomState::new(rt), RandomState::new(rt)) else {
        return Err(StartFault::NoRandom);
    };
    let opened = open_events(rt, folder, &seeder)?;
    let found = found(&opened);
    let witness = Witness::open(rt, folder, found)?;
    match start_book(rt.alloc(), opened, request, on_flights, hasher) {
        Ok(started) => Ok(Opening {
            started,
            witness,
            found,
        }),
        Err(fault) => Err(StartFault::Book(fault)),
    }
}

/// Makes the new file of a store, whole, under the name that it has until the old one is moved.
fn write_next<B: BookRows + Drop>(
    rt: &HostRuntime,
    folder: &str,
    book: &Book<B>,
    request: NextRequest<'_>,
) -> Result<(), NextError>
    requires folded { book.now.entries ≡ [] }
    requires some { 1 ≤ request.events_max }
    requires few { request.events_max ≤ 1000000 }
    requires version { length request.version.now ≤ VERSION_MAX }
{
    let (Ok(seeder), Ok(hasher)) = (RandomState::new(rt), RandomState::new(rt)) else {
        return Err(NextError::NoMemory);
    };
    let Ok(path) = format!(in rt.alloc(); "{folder}/{NEXT_NAME}") else {
        return Err(NextError::NoMemory);
    };
    let seed = seeder.hash_one(&0u8);
    let (events, _) = match create_at(rt, path.as_str(), FIRST_RECORD, seed, Unknown) {
        Ok(created) => created,
        Err(error) => return Err(NextError::of_file(error)),
    };
    if let Err(error) = set_modes(rt, path.as_str()) {
        return Err(NextError::of_io(error));
    }
    let events = match begin_next(rt.alloc(), events, book, request, hasher) {
        Ok(events) => events,
        Err(error) => return Err(error),
    };
    if let Err(error) = close_store(events) {
        return Err(NextError::Disk(error));
    }
    match finish_next(rt, folder) {
        Ok(()) => Ok(()),
        Err(error) => Err(NextError::of_io(error)),
    }
}

/// The store alone. Its book is given up.
fn without_book<S: Store, B: BookRows + Drop>(folded: Folded<S, B>) -> EventStore<S> {
    let Folded { store, book } = folded;
    drop(book);
    store
}

/// Gives up a store and its book. The store is opened again.
fn give_up<S: Store + Drop, B: BookRows + Drop>(folded: Folded<S, B>) {
    drop(folded);
}

/// Closes a store, and puts the new file in the place of its file.
///
/// # Errors
///
/// Where the old store isn't closed in order.
fn close_and_swap(
    rt: &HostRuntime,
    folder: &str,
    second: u64,
    store: EventStore<FileStore<File>>,
    flights: Flights,
) -> Result<NextFile, StartFault>
    ensures { IfOk result (λ next. next ≢ NextFile.Kept) }
{
    let _files = match settled(store) {
        Ok(files) => files,
        Err(error) => return Err(StartFault::Disk(error)),
    };
    match swap(rt, folder, second) {
        Ok(archived) => Ok(NextFile::Begun { archived, flights }),
        Err(error) => Ok(NextFile::Stayed(NextError::of_io(error))),
    }
}

/// What becomes of messages that are in flight at so many destinations, in a new file.
fn given_back(flying: usize) -> Flights {
    if flying == 0 {
        Flights::None
    } else {
        Flights::GivenBack(flying)
    }
}

/// Puts a new file, with this bound, in the place of a store's file: folds the entries of its book, makes the new file, in which what
/// is in flight waits again, and moves the old one. The store is closed.
///
/// # Errors
///
/// Where the old store isn't written or closed in order. It is opened again by a later start.
fn follow<B: BookRows + Drop>(
    rt: &HostRuntime,
    folder: &str,
    events: EventStore<FileStore<File>>,
    book: Book<B>,
    second: u64,
    request: NextRequest<'_>,
) -> Result<NextFile, StartFault>
    requires some { 1 ≤ request.events_max }
    requires few { request.events_max ≤ 1000000 }
    requires version { length request.version.now ≤ VERSION_MAX }
    ensures { IfOk result (λ next. next ≢ NextFile.Kept) }
{
    let flights = given_back(flying(&book));
    let folded = match fold_book(rt.alloc(), events, book, request.at) {
        Ok(folded) => folded,
        Err(FoldError::Refused(refusal)) => {
            return Ok(NextFile::Stayed(NextError::of_refusal(refusal)));
        }
        Err(FoldError::Store(fault)) => return Err(StartFault::Book(fault)),
    };
    match write_next(rt, folder, &folded.book, request) {
        Ok(()) => close_and_swap(rt, folder, second, without_book(folded), flights),
        Err(error) => {
            give_up(folded);
            Ok(NextFile::Stayed(error))
        }
    }
}

/// Whether a store in which this many records were found goes on in a new file, where the command line asks for this bound.
fn is_followed<B: BookRows>(book: &Book<B>, found: u64, events_max: u32) -> bool
    ensures { result ≡ is_followed book.now found events_max }
{
    book.events_max() != events_max
        || flying(book) > 0
        || (found >= RECORDS_LONG && book.prunings() < PRUNINGS_FEW)
}

/// The same request once more.
fn again<'a>(request: &StartRequest<'a>) -> Result<StartRequest<'a>, StartFault>
    ensures plan { IfOk result (λ r. arc_value r.plan ≡ arc_value request.entry.now.plan) }
    ensures bound { IfOk result (λ r. r.events_max ≡ request.entry.now.events_max) }
    ensures version { IfOk result (λ r. r.version.now ≡ request.entry.now.version.now) }
{
    match Arc::try_clone(&request.plan) {
        Ok(plan) => Ok(StartRequest {
            plan,
            events_max: request.events_max,
            version: request.version,
            now: request.now,
        }),
        Err(_) => Err(StartFault::NoMemory),
    }
}

/// A store that was started, whose file may be a new one.
#[derive(Drop)]
struct StartedFile<B: BookRows> {
    started: Started<FileStore<File>, B>,
    witness: Witness,
    next: NextFile,
}

/// The bound that is enough for a book of this one, with messages in flight at so many destinations: each of them owes one entry more
/// when it waits again. None where no book may have it.
fn enough(bound: u32, flying: usize) -> Option<u32>
    ensures { IfSome result (λ enough. (enough ≡ bound + flying) × (enough ≤ EVENTS_MAX)) }
{
    let flying = u32::try_from(flying).ok()?;
    let enough = bound.checked_add(flying)?;
    if enough <= EVENTS_MAX {
        Some(enough)
    } else {
        None
    }
}

/// Why a store of this bound, with messages in flight at so many destinations, isn't started, where no new file was begun.
fn not_followed(error: NextError, bound: u32, asked: u32, flying: usize) -> StartFault {
    match error {
        NextError::Book(NextFault::NotGood) => match enough(bound, flying) {
            Some(enough) if flying > 0 => StartFault::Book(BookFault::MoreOwed { asked, enough }),
            _ => StartFault::Book(BookFault::OtherBound { bound, asked }),
        },
        NextError::Prune(_) => StartFault::Book(BookFault::OtherBound { bound, asked }),
        error => StartFault::Next(error),
    }
}

/// Whether no start can begin a new file for it, where messages of a book of this bound are in flight at so many destinations.
fn is_never_followed(error: &NextError, bound: u32, flying: usize) -> bool
    ensures { result ≡ is_never_followed error.now bound flying }
{
    match error {
        NextError::Book(NextFault::NotGood) => (EVENTS_MAX.saturating_sub(bound) as usize) < flying,
        NextError::Prune(_) => true,
        _ => false,
    }
}

/// Whether a store goes on without a new file, for this reason.
fn may_stay(error: &NextError, bound: u32, asked: u32, flying: usize) -> bool
    ensures { result ≡ may_stay error.now bound asked flying }
{
    bound == asked && (flying == 0 || is_never_followed(error, bound, flying))
}

/// What became of a store of this bound, with messages in flight at so many destinations, where the command line asks for a bound. It
/// goes on without a new file where that is the same, and nothing is in flight or no start can begin one for it.
fn followed(next: NextFile, bound: u32, asked: u32, flying: usize) -> Result<NextFile, StartFault>
    ensures next { IfOk result (λ next. may_be_next next bound asked flying ≡ true) }
    ensures same { IfOk result (λ after. after ≡ next) }
{
    match next {
        NextFile::Stayed(error) => {
            if may_stay(&error, bound, asked, flying) {
                Ok(NextFile::Stayed(error))
            } else {
                Err(not_followed(error, bound, asked, flying))
            }
        }
        next => Ok(next),
    }
}

/// Goes on in a new file from a store that was started.
fn go_on<B: BookRows + Drop>(
    rt: &HostRuntime,
    folder: &str,
    started: Started<FileStore<File>, B>,
    request: StartRequest<'_>,
) -> Result<StartedFile<B>, StartFault>
    requires some { 1 ≤ request.events_max }
    requires few { request.events_max ≤ 1000000 }
    requires version { length request.version.now ≤ VERSION_MAX }
    ensures recovered { IfOk result (λ s. IsClean (view s.started.store.store)
        → IsRecovered (bodies_in (view s.started.store.store).trees) s.started.book) }
    ensures durable { IfOk result (λ s. AreDurable (view s.started.store.store)
        (recovers s.started.store.store) (records_in (view s.started.store.store).trees)) }
    ensures plan { IfOk result (λ s. (s.started.kept_plan ≡ None)
        ↔ (plan_in_force s.started.book ≡ arc_value request.entry.plan)) }
    ensures bound { IfOk result (λ s. s.started.book.opening.events_max ≡ request.entry.events_max) }
    ensures followed { IfOk result (λ s. s.next ≢ NextFile.Kept) }
{
    let Started {
        book,
        store,
        last_second,
        records,
        last_connection,
        ..
    } = started;
    let (bound, asked, flying) = (book.events_max(), request.events_max, flying(&book));
    let new_request = NextRequest {
        events_max: asked,
        version: request.version,
        last_connection,
        at: millis(later(request.now, last_second)),
    };
    let next = follow(rt, folder, store, book, last_second, new_request)?;
    let next = followed(next, bound, asked, flying)?;
    let Opening {
        started,
        witness,
        ..
    } = match open_book::<B>(rt, folder, request, OnFlights::Settle) {
        Ok(opening) => opening,
        Err(fault) => return Err(fault),
    };
    match of_bound(started, records, asked) {
        Ok(started) => Ok(StartedFile {
            started,
            witness,
            next,
        }),
        Err(fault) => Err(StartFault::Book(fault)),
    }
}

/// Starts the store in a folder, in a new file where the old one is long or of another bound than the command line asks for, or where
/// a message was in flight.
fn start_file<B: BookRows + Drop>(
    rt: &HostRuntime,
    folder: &str,
    request: StartRequest<'_>,
) -> Result<StartedFile<B>, StartFault>
    requires some { 1 ≤ request.events_max }
    requires few { request.events_max ≤ 1000000 }
    requires version { length request.version.now ≤ VERSION_MAX }
    ensures recovered { IfOk result (λ s. IsClean (view s.started.store.store)
        → IsRecovered (bodies_in (view s.started.store.store).trees) s.started.book) }
    ensures durable { IfOk result (λ s. AreDurable (view s.started.store.store)
        (recovers s.started.store.store) (records_in (view s.started.store.store).trees)) }
    ensures plan { IfOk result (λ s. (s.started.kept_plan ≡ None)
        ↔ (plan_in_force s.started.book ≡ arc_value request.entry.plan)) }
    ensures bound { IfOk result (λ s. s.started.book.opening.events_max ≡ request.entry.events_max) }
    ensures left { IfOk result (λ s. s.next ≡ NextFile.Kept → s.started.interrupted ≡ 0) }
{
    let once_more = match again(&request) {
        Ok(request) => request,
        Err(fault) => return Err(fault),
    };
    let Opening {
        started,
        witness,
        found,
    } = match open_book::<B>(rt, folder, request, OnFlights::Leave) {
        Ok(opening) => opening,
        Err(fault) => return Err(fault),
    };
    if is_followed(&started.book, found, once_more.events_max) {
        return go_on(rt, folder, started, once_more);
    }
    Ok(StartedFile {
        started,
        witness,
        next: NextFile::Kept,
    })
}

/// A store that was started, with numbers for its connections, and the destinations that are held.
fn with_numbers<B: BookRows + Drop>(
    rt: &HostRuntime,
    folder: &str,
    file: StartedFile<B>,
) -> Result<ServiceStore<B>, StartFault>
    ensures started { IfOk result (λ s. s.started ≡ file.started) }
    ensures next { IfOk result (λ s. s.next ≡ file.next) }
    ensures reserved { IfOk result (λ s. s.connections.first < s.connections.end) }
    ensures unused { IfOk result (λ s. IfSome file.started.last_connection (λ last. last < s.connections.first)) }
{
    let holds = match StoredHolds::open(rt, folder) {
        Ok(holds) => holds,
        Err(fault) => return Err(StartFault::Holds(fault)),
    };
    let StartedFile {
        started,
        witness,
        next,
    } = file;
    let connections = reserved(rt, folder, started.last_connection)?;
    Ok(ServiceStore {
        started,
        next,
        connections,
        witness,
        holds,
    })
}

/// Starts the store in a folder, which no other start uses meanwhile.
fn start<B: BookRows + Drop>(
    rt: &HostRuntime,
    folder: &str,
    request: StartRequest<'_>,
) -> Result<ServiceStore<B>, StartFault>
    requires some { 1 ≤ request.events_max }
    requires few { request.events_max ≤ 1000000 }
    requires version { length request.version.now ≤ VERSION_MAX }
    ensures recovered { IfOk result (λ s. IsClean (view s.started.store.store)
        → IsRecovered (bodies_in (view s.started.store.store).trees) s.started.book) }
    ensures durable { IfOk result (λ s. AreDurable (view s.started.store.store)
        (recovers s.started.store.store) (records_in (view s.started.store.store).trees)) }
    ensures plan { IfOk result (λ s. (s.started.kept_plan ≡ None)
        ↔ (plan_in_force s.started.book ≡ arc_value request.entry.plan)) }
    ensures bound { IfOk result (λ s. s.started.book.opening.events_max ≡ request.entry.events_max) }
    ensures left { IfOk result (λ s. s.next ≡ NextFile.Kept → s.started.interrupted ≡ 0) }
    ensures reserved { IfOk result (λ s. s.connections.first < s.connections.end) }
    ensures unused { IfOk result (λ s. IfSome s.started.last_connection (λ last. last < s.connections.first)) }
{
    make_folder(rt, folder)?;
    let _lock = match locked(rt, folder) {
        Ok(Some(lock)) => lock,
        Ok(None) => return Err(StartFault::InUse),
        Err(error) => return Err(StartFault::of_io(error)),
    };
    match start_file(rt, folder, request) {
        Ok(file) => with_numbers(rt, folder, file),
        Err(fault) => Err(fault),
    }
}

/// Starts a service from the store in a folder, which is made where it isn't there. The store stays locked for other processes until
/// it is dropped.
///
/// # Errors
///
/// Why it isn't started, with the path of the folder or the file.
pub fn start_in_folder<'a, B: BookRows + Drop>(
    rt: &HostRuntime,
    folder: &'a str,
    request: StartRequest<'_>,
) -> Result<ServiceStore<B>, StartError<'a>>
    requires some { 1 ≤ request.events_max }
    requires few { request.events_max ≤ 1000000 }
    requires version { length request.version.now ≤ VERSION_MAX }

    // The book is what is recovered from just the records that the store has, and a crash leaves just these.
    ensures recovered { IfOk result (λ s. IsClean (view s.started.store.store)
        → IsRecovered (bodies_in (view s.started.store.store).trees) s.started.book) }
    ensures durable { IfOk result (λ s. AreDurable (view s.started.store.store)
        (recovers s.started.store.store) (records_in (view s.started.store.store).trees)) }
    ensures plan { IfOk result (λ s. (s.started.kept_plan ≡ None)
        ↔ (plan_in_force s.started.book ≡ arc_value request.entry.plan)) }
    ensures bound { IfOk result (λ s. s.started.book.opening.events_max ≡ request.entry.events_max) }

    // Where it goes on in its file, no attempt that was in flight is settled.
    ensures left { IfOk result (λ s. s.next ≡ NextFile.Kept → s.started.interrupted ≡ 0) }

    // Some numbers of connections are reserved, none of which a message came over.
    ensures reserved { IfOk result (λ s. s.connections.first < s.connections.end) }
    ensures unused { IfOk result (λ s. IfSome s.started.last_connection (λ last. last < s.connections.first)) }
{
    match start(rt, folder, request) {
        Ok(store) => Ok(store),
        Err(fault) => Err(StartError { folder, fault }),
    }
}
