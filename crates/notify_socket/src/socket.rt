//! The socket.

use crate::address::address_of;
use libc::net as c;
use os::FromRawFd;
use std::os::fd::{AsRawFd, OwnedFd};

/// The most bytes of an address that the system reads.
const ADDRESS_BYTES: u32 = 128;

/// A datagram socket by which a process says to its service manager how it is. Nothing is ever read from it.
#[derive(Drop)]
pub struct NotifySocket {
    socket: OwnedFd,
    /// The address of the manager's socket: the bytes of C's `sockaddr_un`.
    address: [u8; c::_SS_SIZE],
    /// How many of these bytes count.
    len: u32,
}

/// A new datagram socket; none where the system refuses it.
fn new_socket() -> Option<OwnedFd> {
    let kind = c::SOCK_DGRAM | c::SOCK_CLOEXEC;
    let fd = unsafe { c::socket(c::AF_UNIX, kind, 0) };
    if fd < 0 {
        return None;
    }
    Some(unsafe { OwnedFd::from_raw_fd(fd) })
}

impl NotifySocket {
    /// A socket to a manager at the address that the environment variable NOTIFY_SOCKET has: a path, or `@` and a name in Linux's
    /// abstract namespace. None where that is no address, or the system refuses the socket. Whether anybody listens is not asked.
    pub fn open(name: &[u8]) -> Option<NotifySocket> {
        let (address, len) = address_of(name)?;
        let socket = new_socket()?;
        Some(NotifySocket {
            socket,
            address,
            len,
        })
    }

    /// Sends a datagram. Returns whether it was sent: a manager that is slow or doesn't listen is not waited for.
    pub fn send(&self, datagram: &[u8]) -> bool {
        let flags = c::MSG_NOSIGNAL | c::MSG_DONTWAIT;
        let len = self.len.min(ADDRESS_BYTES);
        let fd = self.socket.as_raw_fd();
        let sent = unsafe { c::sendto(fd, datagram, flags, &self.address, len) };
        sent >= 0
    }
}
