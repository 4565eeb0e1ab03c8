//! Why a store isn't started.

ghost use Rattle.std.specs.Prelude.{◌≡◌, ℕ, List};
ghost use Rattle.book_recovery.specs.inner.File.{IsFailure};
ghost use Rattle.service_store.specs.declared.fault.BookFault.TheVariants.{NoMemory};
ghost use Rattle.service_store.specs.inner.Faults.{IsBookFailure, IsWriteFailure, book_status, holds_status, next_status, numbers_status, start_status};

use book_recovery::{HeaderFault, NextFault, RecordProblem, RecoveryError, Stop};
use book_replay::ReplayFault;
use event_log::PruneRefusal;
use sqlite_trees::error::StoreError;
use std::alloc::{AllocError, AllocFailed, Global};
use std::io;
use thiserror::Error;

/// Why the book of a store isn't started.
#[derive(Debug, Drop, Error)]
pub enum BookFault {
    /// An allocation was refused.
    #[error("out of memory")]
    NoMemory,
    /// The first record is neither a header nor a preface.
    #[error("{0}: name the folder of a store that this version of the program reads")]
    Header(HeaderFault),
    /// The first record is a preface, with no opening that can be read and from which a book can go on.
    #[error("the opening of the store can't be read, or no book can go on from it: restore the file")]
    NoOpening,
    /// The document in the header is no plan.
    #[error("the plan in the header can't be read: start the version of the program that began the store")]
    NoPlan,
    /// The book can't be recovered.
    #[error("record {}: {problem}; version {version} began the store: start that version, or restore the file", .index.saturating_add(1))]
    Stopped {
        /// The index of the record at which it stops, counted from 0 for the header. The text counts from 1.
        index: usize,
        /// What is wrong with it.
        problem: RecordProblem,
        /// The version of the program that began the store.
        version: String,
    },
    /// The book of the store may hold another number of entries than the command line asks for, and can't go on with that.
    #[error("the store was begun with --events {bound}, and can't go on with {asked}, as the command line has it: start with --events {bound}")]
    OtherBound {
        /// The most entries of the store's book.
        bound: u32,
        /// Those that the command line asks for.
        asked: u32,
    },
    /// What was in flight is to be sent again, for which the bound that the command line asks for leaves no room.
    #[error("what was in flight is to be sent again, and --events {asked} leaves no room for that: start with --events {enough}")]
    MoreOwed {
        /// The bound that the command line asks for.
        asked: u32,
        /// One that is enough.
        enough: u32,
    },
    /// The store failed at a write or a sync.
    #[error("not written: {0}; see to the disk and its room, and start again")]
    Write(StoreError),
}

/// Why no number of a connection is reserved.
#[derive(Debug, Drop, Error)]
pub enum NumbersFault {
    /// An allocation was refused.
    #[error("out of memory")]
    NoMemory,
    /// The file is there, and holds something else than one number.
    #[error("damaged: write the first number of a connection that was never used into it, on a line")]
    Damaged,
    /// All numbers of 32 bits are used.
    #[error("no number of a connection is left: begin another store")]
    UsedUp,
    /// The file can't be read.
    #[error("not read: {0}")]
    Read(io::Error),
    /// The file can't be replaced.
    #[error("not written: {0}; see to the disk and its room, and start again")]
    Write(io::Error),
}

/// Why the names of the destinations that are held can't be read or kept.
#[derive(Debug, Drop, Error)]
pub enum HoldsFault {
    /// An allocation was refused.
    #[error("out of memory")]
    NoMemory,
    /// The file is there, and holds something else than names, each once.
    #[error("damaged: write the name of each destination that is held into it, on a line of its own, or remove it")]
    Damaged,
    /// The file can't be read.
    #[error("not read: {0}")]
    Read(io::Error),
    /// The file can't be replaced.
    #[error("not written: {0}; see to the disk and its room")]
    Write(io::Error),
}

/// Why a store doesn't go on in a new file.
#[derive(Debug, Drop, Error)]
pub enum NextError {
    /// An allocation was refused.
    #[error("out of memory")]
    NoMemory,
    /// No file goes on from the book.
    #[error("{0}")]
    Book(NextFault),
    /// The entries of the book aren't folded.
    #[error("{0}")]
    Prune(PruneRefusal),
    /// The new store can't be made or written.
    #[error("{0}")]
    Disk(StoreError),
    /// What is at the path of the new store is no store.
    #[error("something else is at its path")]
    NotAStore,
    /// A file can't be made, moved or removed.
    #[error("{0}")]
    File(io::Error),
}

/// What went wrong at a start.
#[derive(Debug, Drop, Error)]
pub enum StartFault {
    /// An allocation was refused.
    #[error("out of memory")]
    NoMemory,
    /// The system gave no random bytes.
    #[error("the system gave no random bytes")]
    NoRandom,
    /// The path is that of a file.
    #[error("no folder: name a folder, or a path at which nothing is")]
    NotAFolder,
    /// The folder can't be made or looked at.
    #[error("the folder can't be used: {0}")]
    Folder(io::Error),
    /// Another process has the store open.
    #[error("in use by another process: end that process, or name another folder")]
    InUse,
    /// The file of the store can't be opened.
    #[error("can't be opened: {0}")]
    File(io::Error),
    /// The file is no store, or is damaged.
    #[error("damaged, or no message store: restore it, or name another folder")]
    NotAStore,
    /// SQLite left a journal beside the file.
    #[error("a rollback journal is beside the file: open the file with sqlite3 first")]
    HotJournal,
    /// Another program, or another version of this one, wrote the file.
    #[error("the file is of format {0}, and this program reads format 0: start the program that wrote it")]
    OtherFormat(u32),
    /// The disk failed while the store was opened or made.
    #[error("{0}: see to the disk and its room, and start again")]
    Disk(StoreError),
    /// The store has had more records than it has.
    #[error("damaged: {found} records are left of {noted}: restore it, or remove the file records beside it to start with what is left")]
    Lost {
        /// How many were found.
        found: u64,
        /// How many it has had at least.
        noted: u64,
    },
    /// The book of the store isn't started.
    #[error("{0}")]
    Book(BookFault),
    /// No new file goes on from the store, as the bound that the command line asks for needs, or what was in flight.
    #[error("no new file goes on from it, as another --events needs, or what was in flight: {0}")]
    Next(NextError),
    /// No number of a connection is reserved.
    #[error("{0}")]
    Numbers(NumbersFault),
    /// It is not known which destinations are held.
    #[error("{0}")]
    Holds(HoldsFault),
}

/// Why a store isn't started, with the folder of the store. The text is one line that begins with the path of the folder or the file.
#[derive(Debug, Drop, Error)]
#[error("{folder}{}: {fault}", .fault.file())]
pub struct StartError<'a> {
    /// The path of the folder.
    pub folder: &'a str,
    /// What went wrong.
    pub fault: StartFault,
}

impl From<AllocError> for BookFault {
    ghost from_gives = { λ _ e. e ≡ NoMemory };

    fn from(_: AllocError) -> BookFault {
        BookFault::NoMemory
    }
}

impl<T: Drop> From<AllocFailed<T>> for BookFault {
    ghost from_gives = { λ _ e. e ≡ NoMemory };

    fn from(_: AllocFailed<T>) -> BookFault {
        BookFault::NoMemory
    }
}

/// A recovery that stopped at a record.
fn stopped(alloc: Global, stop: Stop<'_>) -> BookFault
    ensures { (bodies : List (List ℕ)) → IsFailure bodies (RecoveryError.Stopped stop.entry) → IsBookFailure bodies result }
{
    if stop.problem == RecordProblem::Replay(ReplayFault::NoMemory) {
        return BookFault::NoMemory;
    }
    match String::from_str(alloc, stop.version) {
        Ok(version) => BookFault::Stopped {
            index: stop.index,
            problem: stop.problem,
            version,
        },
        Err(_) => BookFault::NoMemory,
    }
}

impl BookFault {
    /// Why no book was recovered.
    pub(crate) fn of_recovery(alloc: Global, error: RecoveryError<'_>) -> BookFault
        ensures { (bodies : List (List ℕ)) → IsFailure bodies error.entry → IsBookFailure bodies result }
    {
        match error {
            RecoveryError::NoMemory => BookFault::NoMemory,
            RecoveryError::Header(fault) => BookFault::Header(fault),
            RecoveryError::NoOpening => BookFault::NoOpening,
            RecoveryError::NoPlan => BookFault::NoPlan,
            RecoveryError::Stopped(stop) => stopped(alloc, stop),
        }
    }

    /// What failed at a write of the store.
    pub(crate) fn of_write(error: StoreError) -> BookFault
        ensures { IsWriteFailure result }
    {
        match error {
            StoreError::OutOfMemory => BookFault::NoMemory,
            error => BookFault::Write(error),
        }
    }

    /// The exit status of a program that ends for it.
    pub fn status(&self) -> u8
        ensures { result ≡ book_status self.now }
    {
        match self {
            BookFault::NoMemory => 3,
            BookFault::Header(_)
            | BookFault::NoOpening
            | BookFault::NoPlan
            | BookFault::Stopped { .. }
            | BookFault::OtherBound { .. }
            | BookFault::MoreOwed { .. } => 7,
            BookFault::Write(_) => 6,
        }
    }
}

impl NumbersFault {
    /// What failed at a write of the file.
    pub(crate) fn of_write(error: io::Error) -> NumbersFault {
        match error.kind() {
            io::ErrorKind::OutOfMemory => NumbersFault::NoMemory,
            _ => NumbersFault::Write(error),
        }
    }

    /// The exit status of a program that ends for it.
    pub fn status(&self) -> u8
        ensures { result ≡ numbers_status self.now }
    {
        match self {
            NumbersFault::NoMemory | NumbersFault::UsedUp | NumbersFault::Read(_) => 3,
            NumbersFault::Damaged => 7,
            NumbersFault::Write(_) => 6,
        }
    }
}

impl HoldsFault {
    /// What failed at a write of the file.
    pub(crate) fn of_write(error: io::Error) -> HoldsFault {
        match error.kind() {
            io::ErrorKind::OutOfMemory => HoldsFault::NoMemory,
            _ => HoldsFault::Write(error),
        }
    }

    /// The exit status of a program that ends for it.
    pub fn status(&self) -> u8
        ensures { result ≡ holds_status self.now }
    {
        match self {
            HoldsFault::NoMemory | HoldsFault::Read(_) => 3,
            HoldsFault::Damaged => 7,
            HoldsFault::Write(_) => 6,
        }
    }
}

impl NextError {
    /// Why the entries of a book aren't folded.
    pub(crate) fn of_refusal(refusal: PruneRefusal) -> NextError {
        match refusal {
            PruneRefusal::NoMemory => NextError::NoMemory,
            refusal => NextError::Prune(refusal),
        }
    }

    /// What failed at a write of the new store.
    pub(crate) fn of_write(fault: BookFault) -> NextError {
        match fault {
            BookFault::Write(error) => NextError::Disk(error),
            _ => NextError::NoMemory,
        }
    }

    /// What the system said of a file.
    pub(crate) fn of_io(error: io::Error) -> NextError {
        match error.kind() {
            io::ErrorKind::OutOfMemory => NextError::NoMemory,
            _ => NextError::File(error),
        }
    }

    /// The exit status of a program that ends for it.
    pub fn status(&self) -> u8
        ensures { result ≡ next_status self.now }
    {
        match self {
            NextError::NoMemory => 3,
            NextError::Book(_) | NextError::Prune(_) | NextError::NotAStore => 7,
            NextError::Disk(_) | NextError::File(_) => 6,
        }
    }
}

impl StartFault {
    /// The end of the path of what it is about: nothing for the folder.
    fn file(&self) -> &'static str {
        match self {
            StartFault::NoMemory
            | StartFault::NoRandom
            | StartFault::NotAFolder
            | StartFault::Folder(_) => "",
            StartFault::Numbers(_) => "/connections",
            StartFault::Holds(_) => "/holds",
            _ => "/events.db",
        }
    }

    /// The exit status of a program that ends for it: 8 where the store is in use; 7 where a file is damaged, of another format, or
    /// of another bound, or its book is not what was acknowledged; 6 where the disk failed; else 3.
    pub fn status(&self) -> u8
        ensures { result ≡ start_status self.now }
    {
        match self {
            StartFault::NoMemory
            | StartFault::NoRandom
            | StartFault::NotAFolder
            | StartFault::Folder(_)
            | StartFault::File(_) => 3,
            StartFault::InUse => 8,
            StartFault::NotAStore
            | StartFault::HotJournal
            | StartFault::OtherFormat(_)
            | StartFault::Lost { .. } => 7,
            StartFault::Disk(_) => 6,
            StartFault::Book(fault) => fault.status(),
            StartFault::Next(error) => error.status(),
            StartFault::Numbers(fault) => fault.status(),
            StartFault::Holds(fault) => fault.status(),
        }
    }
}
