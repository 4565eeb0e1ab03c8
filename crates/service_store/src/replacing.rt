//! Replacing a small file of a store's folder.

use crate::folder::FILE_MODE;
use std::fs::{File, OpenOptions, Permissions};
use std::io::Write;
use std::os::unix::fs::{OpenOptionsExt, PermissionsExt};
use std::{fs, io};

/// Replaces the file of a name in a folder. The file has the old bytes or the new ones at any moment, and the new ones once this
/// returns.
pub(crate) fn replace(rt: &HostRuntime, folder: &str, name: &str, bytes: &[u8]) -> io::Result<()> {
    let alloc = rt.alloc();
    let path = format!(in alloc; "{folder}/{name}")?;
    let new_path = format!(in alloc; "{folder}/{name}.new")?;
    let mut file = OpenOptions::new()
        .write(true)
        .create(true)
        .truncate(true)
        .mode(FILE_MODE)
        .open(rt, new_path.as_str())?;
    file.set_permissions(Permissions::from_mode(FILE_MODE))?;
    file.write_all(bytes)?;
    file.sync_all()?;
    fs::rename(rt, new_path.as_str(), path.as_str())?;
    File::open(rt, folder)?.sync_all()
}
