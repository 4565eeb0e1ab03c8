//! The book of a store that no process has open, read without a change of any file.
//!
//! What the files hold is copied into memory first, and opened there: opening a database may finish what a crash cut off, which would
//! change the files.

ghost use Rattle.std.specs.Prelude.{IfOk};
ghost use Rattle.sqlite_store.specs.Unopened.{AreUsable};

use crate::fault::{BookFault, StartError, StartFault};
use crate::holds::StoredHolds;
use crate::open::FIRST_RECORD;
use crate::witness::Witness;
use book_core::{Book, BookRows};
use book_recovery::{Recovered, recover};
use event_file::{FileError, open, prepare};
use event_store::StoredRecord;
use os::{RangeLock, try_lock_range};
use sqlite_disk::{Disk, Files, Memory};
use sqlite_store::Unopened;
use std::fs::File;
use std::hash::{BuildHasher, RandomState};
use std::os::fd::AsRawFd;
use std::{fs, io};

/// A book as a store has it, and what its files say beside it.
#[derive(Drop)]
pub struct StoppedBook<B: BookRows> {
    /// The book. A message that was in flight when the last process ended is in flight in it.
    pub book: Book<B>,
    /// How many records there are behind the first.
    pub records: usize,
    /// The last moment in the store, in seconds since 1970.
    pub last_second: u64,
    /// The names of the destinations that are held.
    pub held: Vec<String>,
}

/// The most bytes of a file.
const FILE_MAX: u64 = i64::MAX as u64;

/// Whether a process has locked a file for writing.
fn is_in_use(rt: &HostRuntime, path: &str) -> io::Result<bool> {
    let file = File::open(rt, path)?;
    Ok(try_lock_range(file.as_raw_fd(), RangeLock::Shared, 0, FILE_MAX) < 0)
}

/// The bytes of a file, as a disk in memory; an empty one where there is no file.
fn copied(rt: &HostRuntime, path: &str) -> io::Result<Memory> {
    let mut memory = Memory::new(rt.alloc());
    let bytes = match fs::read(rt, path) {
        Ok(bytes) => bytes,
        Err(error) if error.kind() == io::ErrorKind::NotFound => return Ok(memory),
        Err(error) => return Err(error),
    };
    memory.write_at(0, bytes.as_slice())?;
    Ok(memory)
}

/// Copies of the database of a store and of its log.
fn copies(rt: &HostRuntime, folder: &str) -> Result<Files<Memory>, StartFault> {
    let (Ok(db), Ok(log)) = (
        format!(in rt.alloc(); "{folder}/events.db"),
        format!(in rt.alloc(); "{folder}/events.db-wal"),
    ) else {
        return Err(StartFault::NoMemory);
    };
    match is_in_use(rt, db.as_str()) {
        Ok(false) => {}
        Ok(true) => return Err(StartFault::InUse),
        Err(error) => return Err(StartFault::of_io(error)),
    }
    match (copied(rt, log.as_str()), copied(rt, db.as_str())) {
        (Ok(log), Ok(db)) => Ok(Files { log, db }),
        (Err(error), _) | (_, Err(error)) => Err(StartFault::of_io(error)),
    }
}

/// The copies, ready to be opened.
fn unopened(
    rt: &HostRuntime,
    files: Files<Memory>,
    seed: u64,
) -> Result<Unopened<Memory>, StartFault>
    ensures { IfOk result AreUsable }
{
    if !files.may_be_used() {
        return Err(StartFault::NotAStore);
    }
    match prepare(rt.alloc(), files, seed) {
        Ok(files) => Ok(files),
        Err(error) => Err(StartFault::from(error)),
    }
}

/// The records of a store, from copies of its files.
fn records(rt: &HostRuntime, folder: &str, seed: u64) -> Result<Vec<StoredRecord>, StartFault> {
    let files = unopened(rt, copies(rt, folder)?, seed)?;
    match open(rt.alloc(), FIRST_RECORD, files) {
        Ok((_, records)) => Ok(records),
        Err(failed) => Err(StartFault::from(FileError::from(failed))),
    }
}

fn stopped_book<B: BookRows + Drop>(
    rt: &HostRuntime,
    folder: &str,
) -> Result<StoppedBook<B>, StartFault> {
    let (Ok(seeder), Ok(hasher)) = (RandomState::new(rt), RandomState::new(rt)) else {
        return Err(StartFault::NoRandom);
    };
    let records = records(rt, folder, seeder.hash_one(&0u8))?;
    Witness::open(rt, folder, records.len() as u64)?;
    let held = match StoredHolds::open(rt, folder) {
        Ok(holds) => holds.names,
        Err(fault) => return Err(StartFault::Holds(fault)),
    };
    let recovered = match recover(rt.alloc(), records.as_slice(), hasher) {
        Ok(recovered) => recovered,
        Err(error) => return Err(StartFault::Book(BookFault::of_recovery(rt.alloc(), error))),
    };
    let Recovered {
        book,
        records,
        last_second,
        ..
    } = recovered;
    Ok(StoppedBook {
        book,
        records,
        last_second,
        held,
    })
}

/// The book of the store in a folder, which no process has open. No file is changed or made, and none gets another owner or mode.
/// It takes about as much memory as the files, and as the book.
///
/// # Errors
///
/// Why it isn't read, with the path of the folder or the file; `InUse` where a process has the store open.
pub fn read_stopped<'a, B: BookRows + Drop>(
    rt: &HostRuntime,
    folder: &'a str,
) -> Result<StoppedBook<B>, StartError<'a>> {
    match stopped_book(rt, folder) {
        Ok(stopped) => Ok(stopped),
        Err(fault) => Err(StartError { folder, fault }),
    }
}
