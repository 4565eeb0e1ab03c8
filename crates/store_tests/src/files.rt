//! A file of records over a disk in memory: what was committed is read again, and damage is found.

ghost use Rattle.std.specs.Prelude.{IfOk};
ghost use Rattle.sqlite_store.specs.Unopened.{AreUsable};

use event_file::{FileError, create, open, prepare};
use event_store::{Columns, EventStore, Opened, StoredRecord};
use sqlite_disk::{Disk, Files, Fuse, Memory, Rot};
use sqlite_store::{FileStore, OpenError, Unopened};
use sqlite_trees::error::StoreError;
use sqlite_trees::store::Store;
use std::alloc::Global;
use std::process::Abort;
use std::test::Fail;

const COLUMNS: Columns<'static> = Columns {
    at: 1_700_000_000_000,
    peer: "192.0.2.1:50000",
    kind: "received",
    channel: "adt",
    number: 7,
    control_id: b"MSG00001",
    destination: "",
    outcome: "",
};

fn unopened<D: Disk + Drop>(alloc: Global, files: Files<D>) -> Result<Unopened<D>, Fail>
    ensures { IfOk result AreUsable }
{
    if !files.may_be_used() {
        return Err(Fail::from("a sync has failed"));
    }
    Ok(prepare(alloc, files, 7)?)
}

fn created(alloc: Global, first: u64) -> Result<EventStore<FileStore<Memory>>, Fail> {
    let files = Files {
        log: Memory::new(alloc),
        db: Memory::new(alloc),
    };
    match create(alloc, first, unopened(alloc, files)?) {
        Ok((events, _)) => Ok(events),
        Err(failed) => Err(Fail::from(FileError::from(failed))),
    }
}

/// Appends two records and commits them, and appends a third.
fn fill<S: Store>(events: &mut EventStore<S>) -> Result<(), StoreError> {
    events.append(b"one", &COLUMNS)?;
    events.append(b"", &COLUMNS)?;
    events.commit()?;
    events.append(b"not committed", &COLUMNS)
}

/// Whether these are the records that `fill` commits.
fn are_committed(records: &[StoredRecord]) -> bool {
    let [one, two] = records else {
        return false;
    };
    one.body.as_slice() == b"one".as_slice()
        && one.at == COLUMNS.at
        && one.peer.as_slice() == b"192.0.2.1:50000".as_slice()
        && two.body.is_empty()
}

fn copy_out(store: &mut FileStore<Memory>) -> bool {
    store.rollback();
    store.checkpoint().is_ok()
}

/// The files that `fill` leaves, with its commit copied out of the log.
fn closed(alloc: Global) -> Result<Files<Memory>, Fail> {
    let mut events = created(alloc, 41)?;
    let filled = fill(&mut events);
    let mut store = events.into_store();
    let is_copied = copy_out(&mut store);
    let files = store.close();
    filled?;
    if !is_copied {
        return Err(Fail::from("the log was not copied"));
    }
    Ok(files)
}

/// Opens the files. Returns the number of the next record, and whether the records are those that `fill` commits.
fn reopened(
    alloc: Global,
    first: u64,
    files: Files<Memory>,
) -> Result<Result<(u64, bool), FileError>, Fail> {
    match open(alloc, first, unopened(alloc, files)?) {
        Ok((events, records)) => Ok(Ok((events.next, are_committed(records.as_slice())))),
        Err(failed) => Ok(Err(FileError::from(failed))),
    }
}

#[test]
fn reads_what_was_committed(rt: HostRuntime) -> Result<(), Fail> {
    let files = closed(rt.alloc())?;
    let read = reopened(rt.alloc(), 41, files)?;
    assert!(rt; matches!(read, Ok((43, true))));
    Ok(())
}

#[test]
fn refuses_another_first_number(rt: HostRuntime) -> Result<(), Fail> {
    let files = closed(rt.alloc())?;
    let read = reopened(rt.alloc(), 42, files)?;
    let is_refused = matches!(
        read,
        Err(FileError::Records(event_store::OpenError::NotRecords))
    );
    assert!(rt; is_refused);
    Ok(())
}

fn crashed(
    alloc: Global,
    events: EventStore<FileStore<Memory>>,
) -> Result<Opened<FileStore<Memory>>, Fail> {
    match events.crash_and_reopen(alloc) {
        Ok(opened) => Ok(opened),
        Err((error, _store)) => Err(Fail::from(error)),
    }
}

/// Whether a crash leaves just what `fill` commits.
fn outlives(alloc: Global) -> Result<bool, Fail> {
    let mut events = created(alloc, 1)?;
    let filled = fill(&mut events);
    let (_, records) = crashed(alloc, events)?;
    filled?;
    Ok(are_committed(records.as_slice()))
}

#[test]
fn outlives_a_crash(rt: HostRuntime) -> Result<(), Fail> {
    let is_as_committed = outlives(rt.alloc())?;
    assert!(rt; is_as_committed);
    Ok(())
}

/// A copy of the bytes, of which one bit is flipped.
fn flipped(alloc: Global, file: &Memory, at: usize) -> Result<Memory, Fail> {
    let mut bytes = Vec::from_slice(alloc, file.bytes())?;
    if let Some(byte) = bytes.get_mut(at) {
        *byte ^= 4;
    }
    let mut copy = Memory::new(alloc);
    copy.write_at(0, bytes.as_slice())?;
    Ok(copy)
}

fn is_refused(alloc: Global, files: &Files<Memory>, at: usize) -> Result<bool, Fail> {
    let damaged = Files {
        log: Memory::new(alloc),
        db: flipped(alloc, &files.db, at)?,
    };
    let read = reopened(alloc, 41, damaged)?;
    Ok(matches!(read, Err(FileError::Database(OpenError::Refused))))
}

#[test]
fn refuses_a_flipped_bit(rt: HostRuntime) -> Result<(), Fail> {
    let files = closed(rt.alloc())?;
    for at in [4096 + 10, 4096 + 2000, 8191] {
        let is_refused = is_refused(rt.alloc(), &files, at)?;
        assert!(rt; is_refused, "opened with a bit flipped in byte {at}");
    }
    Ok(())
}

/// Appends and commits three records. Returns how many commits answered `Ok`.
fn commit_three<S: Store>(events: &mut EventStore<S>) -> u64 {
    let mut answered: u64 = 0;
    for _ in 0..3 {
        if events.append(b"record", &COLUMNS).is_ok() && events.commit().is_ok() {
            answered = u64::wrapping_add(answered, 1);
        }
    }
    answered
}

/// The same over a log that passes this number of calls on and then fails each one. Returns how many commits answered `Ok`
/// and how many records are committed, if the store could be created.
fn committed(alloc: Global, calls: u64) -> Result<Option<(u64, u64)>, Fail> {
    let files = Files {
        log: Rot::new(Fuse::new(Memory::new(alloc), calls), usize::MAX),
        db: Rot::new(Fuse::new(Memory::new(alloc), u64::MAX), usize::MAX),
    };
    match create(alloc, 1, unopened(alloc, files)?) {
        Ok((mut events, _)) => {
            let answered = commit_three(&mut events);
            Ok(Some((answered, events.committed.wrapping_sub(1))))
        }
        Err(failed) => {
            let _ = FileError::from(failed);
            Ok(None)
        }
    }
}

#[test]
fn a_failed_call_is_no_commit(rt: HostRuntime) -> Result<(), Fail> {
    assert_eq!(rt; committed(rt.alloc(), 0)?, None);
    assert_eq!(rt; committed(rt.alloc(), u64::MAX)?, Some((3, 3)));
    let mut has_failed = false;
    for calls in 12..20 {
        if let Some((answered, committed)) = committed(rt.alloc(), calls)? {
            assert_eq!(rt; answered, committed);
            has_failed = has_failed || answered < 3;
        }
    }
    assert!(rt; has_failed);
    Ok(())
}
