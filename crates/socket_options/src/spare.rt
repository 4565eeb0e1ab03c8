//! A descriptor that is held back.

use libc::net as c;
use os::FromRawFd;
use std::os::fd::OwnedFd;

/// A descriptor that is held back for a socket that is opened later, so that the process has one left then. Nothing is read
/// from it or written to it.
#[derive(Drop)]
pub struct Spare {
    held: Option<OwnedFd>,
}

/// A new descriptor of nothing; none where the system has none left.
fn hold_one() -> Option<OwnedFd> {
    let fd = c::eventfd(0, c::EFD_CLOEXEC);
    if fd < 0 {
        return None;
    }
    Some(unsafe { OwnedFd::from_raw_fd(fd) })
}

impl Spare {
    /// Holds a descriptor back, or none where the system has none left.
    pub fn new() -> Spare {
        Spare { held: hold_one() }
    }

    /// Gives the descriptor back to the process: the next one that is opened has its number.
    pub fn give_up(&mut self) {
        self.held = None;
    }

    /// Holds a descriptor back again, where none is held and the system has one left.
    pub fn take_back(&mut self) {
        if self.held.is_none() {
            self.held = hold_one();
        }
    }

    /// Whether a descriptor is held back.
    pub fn is_held(&self) -> bool {
        self.held.is_some()
    }
}
