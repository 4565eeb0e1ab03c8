//! The process's own descriptors: the standard ones, which a program may be started without, and how many may be open.
#![tactic(auto)]

use libc::types::rlimit;
use std::fs::{Files, OpenOptions};
use std::io;
use std::os::fd::{AsFd, IntoRawFd};

/// The error of a call on a descriptor that is not open (POSIX's EBADF).
const NOT_OPEN: i32 = 9;

/// The device that takes whatever is written.
const NULL_DEVICE: &str = "/dev/null";

/// Whether a descriptor is open.
pub fn is_open<F: AsFd>(stream: &F) -> bool {
    match stream.as_fd().try_clone_to_owned() {
        Ok(_) => true,
        Err(error) => error.raw_os_error() != Some(NOT_OPEN),
    }
}

/// Opens the null device for writing alone, under the lowest number that is free, to the end of the process. Reading under
/// that number fails.
///
/// # Errors
///
/// Where the null device can't be opened.
pub fn open_null<F: Files>(rt: &F) -> io::Result<()>
where
    F::File: IntoRawFd,
{
    let file = OpenOptions::new().write(true).open(rt, NULL_DEVICE)?;
    let _ = file.into_raw_fd();
    Ok(())
}

/// How many descriptors the process may have open at once. None where the system doesn't say.
pub fn allowed() -> Option<u64> {
    let mut limit = rlimit {
        rlim_cur: 0,
        rlim_max: 0,
    };
    if libc::getrlimit(libc::RLIMIT_NOFILE, &mut limit) != 0 {
        return None;
    }
    Some(limit.rlim_cur)
}
