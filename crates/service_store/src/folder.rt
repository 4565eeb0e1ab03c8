//! The folder of a store.

use crate::fault::StartFault;
use std::alloc::AllocError;
use std::fs::{DirBuilder, File, Permissions};
use std::os::unix::fs::{DirBuilderExt, PermissionsExt};
use std::{fs, io};

/// Only its owner may enter the folder and list it.
const FOLDER_MODE: u32 = 0o700;

/// Only its owner may read a file of the store and write to it.
pub(crate) const FILE_MODE: u32 = 0o600;

/// Makes the folder, where nothing is at its path.
pub(crate) fn make(rt: &HostRuntime, folder: &str) -> io::Result<()> {
    match DirBuilder::new().mode(FOLDER_MODE).create(rt, folder) {
        // The mode is that whatever the umask of the process takes away.
        Ok(()) => fs::set_permissions(rt, folder, Permissions::from_mode(FOLDER_MODE)),
        Err(error) if error.kind() == io::ErrorKind::AlreadyExists => Ok(()),
        Err(error) => Err(error),
    }
}

/// Makes the entry of the folder in its parent durable, where the parent may be read.
fn sync_parent(rt: &HostRuntime, folder: &str) -> io::Result<()> {
    let parent = format!(in rt.alloc(); "{folder}/..")?;
    match File::open(rt, parent.as_str()) {
        Ok(parent) => parent.sync_all(),
        Err(_) => Ok(()),
    }
}

/// Makes the folder of a store, with the mode 0700, where nothing is at its path.
///
/// # Errors
///
/// `NotAFolder` where something else is there; `Folder` with the system's reason.
pub(crate) fn make_folder(rt: &HostRuntime, folder: &str) -> Result<(), StartFault> {
    if let Err(error) = make(rt, folder) {
        return Err(StartFault::Folder(error));
    }
    match fs::metadata(rt, folder) {
        Ok(found) if !found.is_dir() => return Err(StartFault::NotAFolder),
        Ok(_) => {}
        Err(error) => return Err(StartFault::Folder(error)),
    }
    match sync_parent(rt, folder) {
        Ok(()) => Ok(()),
        Err(error) => Err(StartFault::Folder(error)),
    }
}

/// Sets the mode of a store's file and of its log to 0600. They lie where a link at the path leads.
pub(crate) fn set_modes(rt: &HostRuntime, path: &str) -> io::Result<()> {
    let real = fs::canonicalize(rt, path)?;
    let log = format!(in rt.alloc(); "{}-wal", real.as_str())?;
    fs::set_permissions(rt, real.as_str(), Permissions::from_mode(FILE_MODE))?;
    fs::set_permissions(rt, log.as_str(), Permissions::from_mode(FILE_MODE))
}
