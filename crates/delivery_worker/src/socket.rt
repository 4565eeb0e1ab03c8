//! Calls on a socket that don't wait for it, or wait for a limited time.

use libc::net as c;
use libc::types::pollfd;
use std::io;
use std::io::{ErrorKind, Read};
use std::net::TcpStream;
use std::os::fd::AsRawFd;
use std::time::Duration;

/// How much is dropped at once.
const PIECE: usize = 16_384;

/// How many pieces are dropped at most before something else is done.
const PIECES_MAX: u32 = 1_000;

/// What a socket is ready for.
#[derive(Clone, Copy)]
pub struct Ready {
    bits: i16,
}

impl Ready {
    /// Whether the peer ended the connection, or sends nothing more. Bytes may still have come.
    pub fn is_ended(self) -> bool {
        self.bits & (c::POLLRDHUP | c::POLLHUP | c::POLLERR) != 0
    }

    /// Whether there is something to read, its end included.
    pub fn is_readable(self) -> bool {
        self.bits & (c::POLLIN | c::POLLHUP | c::POLLERR) != 0
    }
}

/// Waits until `stream` can be read, its peer ended or, with `writes`, it can be written; for `limit` at most.
pub(crate) fn wait_for(stream: &TcpStream, writes: bool, limit: Duration) -> Ready {
    let mut asked = [pollfd {
        fd: stream.as_raw_fd(),
        events: if writes {
            c::POLLIN | c::POLLRDHUP | c::POLLOUT
        } else {
            c::POLLIN | c::POLLRDHUP
        },
        revents: 0,
    }];
    let millis = i32::try_from(limit.as_millis()).unwrap_or(i32::MAX);
    if c::poll(&mut asked, millis) > 0 {
        Ready {
            bits: asked[0].revents,
        }
    } else {
        Ready { bits: 0 }
    }
}

/// Reads and drops what was received. Returns whether the input is not at its end.
pub(crate) fn drop_input(stream: &mut TcpStream) -> bool {
    let mut buffer = [0; PIECE];
    for _ in 0..PIECES_MAX {
        if !wait_for(stream, false, Duration::ZERO).is_readable() {
            return true;
        }
        match stream.read(&mut buffer) {
            Ok(0) => return false,
            Ok(_) => {}
            Err(error) => match error.kind() {
                ErrorKind::Interrupted => {}
                ErrorKind::WouldBlock => return true,
                _ => return false,
            },
        }
    }
    true
}

/// Whether an error says that the peer ended the connection.
pub(crate) fn is_end(error: &io::Error) -> bool {
    matches!(
        error.kind(),
        ErrorKind::ConnectionReset | ErrorKind::BrokenPipe | ErrorKind::ConnectionAborted
    )
}

/// File table overflow, of the whole system.
const ENFILE: i32 = 23;

/// No buffer space available.
const ENOBUFS: i32 = 105;

/// Whether an error of connecting says that this program or its system lacks descriptors, ports, buffers or memory, and
/// nothing of the peer.
pub(crate) fn is_own_lack(error: &io::Error) -> bool {
    match error.raw_os_error() {
        Some(code) => matches!(
            code,
            libc::EMFILE | ENFILE | ENOBUFS | libc::ENOMEM | libc::EADDRNOTAVAIL | libc::EAGAIN
        ),
        None => error.kind() == ErrorKind::OutOfMemory,
    }
}
