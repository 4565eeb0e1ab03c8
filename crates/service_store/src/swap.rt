//! The new file of a store is put in the place of the old one, which is moved into the folder `archive`.
//!
//! The new file is made whole under another name first. Then the old one is moved, and only then the new one gets its name. So a
//! folder has the old file, the new one, or both at any moment, and a start finishes what a crash left half done.

use crate::folder::{FILE_MODE, make};
use std::fs::{File, Permissions, TryLockError};
use std::os::unix::fs::PermissionsExt;
use std::{fs, io};

/// The name that the new file has until the old one is moved.
pub(crate) const NEXT_NAME: &str = "next.db";

/// Makes the names in a folder durable.
fn sync_folder(rt: &HostRuntime, folder: &str) -> io::Result<()> {
    File::open(rt, folder)?.sync_all()
}

/// Removes a file, where it is there.
fn remove(rt: &HostRuntime, path: &str) -> io::Result<()> {
    match fs::remove_file(rt, path) {
        Err(error) if error.kind() == io::ErrorKind::NotFound => Ok(()),
        outcome => outcome,
    }
}

/// Removes the file of a name in a folder, where it is there.
fn remove_name(rt: &HostRuntime, folder: &str, name: &str) -> io::Result<()> {
    let path = format!(in rt.alloc(); "{folder}/{name}")?;
    remove(rt, path.as_str())
}

/// Removes a new file that was not put in the place of the old one, where it is there.
fn remove_next(rt: &HostRuntime, folder: &str) -> io::Result<()> {
    remove_name(rt, folder, NEXT_NAME)?;
    remove_name(rt, folder, "next.db-wal")
}

/// Removes the log of a new file, which is closed and has all in itself, and makes its name durable.
pub(crate) fn finish_next(rt: &HostRuntime, folder: &str) -> io::Result<()> {
    remove_name(rt, folder, "next.db-wal")?;
    sync_folder(rt, folder)
}

/// A path at which nothing is, for a file that is archived at this second.
fn free_path(rt: &HostRuntime, archive: &str, second: u64) -> io::Result<String> {
    let mut path = format!(in rt.alloc(); "{archive}/events-{second}.db")?;
    for more in 1..1_000u64 {
        match fs::symlink_metadata(rt, path.as_str()) {
            Err(error) if error.kind() == io::ErrorKind::NotFound => return Ok(path),
            Err(error) => return Err(error),
            Ok(_) => {}
        }
        let later = second.saturating_add(more);
        path = format!(in rt.alloc(); "{archive}/events-{later}.db")?;
    }
    Err(io::ErrorKind::AlreadyExists.into())
}

/// Moves the old file into the archive. Returns its path there.
fn archive(rt: &HostRuntime, folder: &str, second: u64) -> io::Result<String> {
    let events = format!(in rt.alloc(); "{folder}/events.db")?;
    if !fs::symlink_metadata(rt, events.as_str())?.is_file() {
        return Err(io::ErrorKind::Unsupported.into());
    }
    let archive = format!(in rt.alloc(); "{folder}/archive")?;
    make(rt, archive.as_str())?;
    let path = free_path(rt, archive.as_str(), second)?;
    fs::set_permissions(rt, events.as_str(), Permissions::from_mode(FILE_MODE))?;
    remove_name(rt, folder, "events.db-wal")?;
    remove_name(rt, folder, "records")?;
    sync_folder(rt, folder)?;
    fs::rename(rt, events.as_str(), path.as_str())?;
    sync_folder(rt, archive.as_str())?;
    sync_folder(rt, folder)?;
    Ok(path)
}

/// Gives the new file its name.
fn put_next(rt: &HostRuntime, folder: &str) -> io::Result<()> {
    let events = format!(in rt.alloc(); "{folder}/events.db")?;
    let next = format!(in rt.alloc(); "{folder}/{NEXT_NAME}")?;
    fs::rename(rt, next.as_str(), events.as_str())?;
    sync_folder(rt, folder)
}

/// Puts the new file of a store in the place of the old one. Both are whole, with nothing in their logs. Returns the path of the old
/// one, whose name has this second.
pub(crate) fn swap(rt: &HostRuntime, folder: &str, second: u64) -> io::Result<String> {
    let path = archive(rt, folder, second)?;
    put_next(rt, folder)?;
    Ok(path)
}

/// Whether a path leads to a file, or to anything else.
fn is_there(rt: &HostRuntime, path: &str) -> io::Result<bool> {
    match fs::symlink_metadata(rt, path) {
        Ok(_) => Ok(true),
        Err(error) if error.kind() == io::ErrorKind::NotFound => Ok(false),
        Err(error) => Err(error),
    }
}

/// Finishes what an earlier start has left half done. Where the old file was not moved, removes the new one; where it was, gives the
/// new one its name.
pub(crate) fn finish_swap(rt: &HostRuntime, folder: &str) -> io::Result<()> {
    let events = format!(in rt.alloc(); "{folder}/events.db")?;
    if is_there(rt, events.as_str())? {
        return remove_next(rt, folder);
    }
    let next = format!(in rt.alloc(); "{folder}/{NEXT_NAME}")?;
    if !is_there(rt, next.as_str())? {
        return Ok(());
    }
    remove_name(rt, folder, "events.db-wal")?;
    put_next(rt, folder)
}

/// Locks a folder for as long as what is returned lives, so that no two starts move its files. Where the system can't lock it, nothing
/// is locked. None where another process has locked it.
pub(crate) fn locked(rt: &HostRuntime, folder: &str) -> io::Result<Option<File>> {
    let folder = File::open(rt, folder)?;
    match folder.try_lock() {
        Err(TryLockError::WouldBlock) => Ok(None),
        _ => Ok(Some(folder)),
    }
}
