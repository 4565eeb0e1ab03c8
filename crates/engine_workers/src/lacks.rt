//! Accepting connections through what passes.

use crate::half::is_interruption;
use std::io;
use std::io::ErrorKind;
use std::net::{SocketAddr, TcpListener, TcpStream};

/// How often a call may be interrupted in a row before that counts as a failure.
const INTERRUPTIONS_MAX: u32 = 1_000;

/// How many milliseconds are waited after an accept that failed for what passes.
pub const PAUSE: u64 = 100;

/// How many such waits may follow one another, so that the last accept is made within 60 seconds of the first.
pub const WAITS_MAX: u32 = 599;

/// The system's table of open files is full (POSIX's ENFILE).
const TABLE_FULL: i32 = 23;

/// The process has no descriptor left (POSIX's EMFILE).
const NO_DESCRIPTOR: i32 = 24;

/// A protocol's error on one connection (POSIX's EPROTO).
const PROTOCOL: i32 = 71;

/// The system has no room for buffers (POSIX's ENOBUFS).
const NO_BUFFERS: i32 = 105;

/// Whether an accept failed for one connection alone, or for lack of what the system may have again in a moment:
/// descriptors, buffers or memory.
pub(crate) fn is_passing(error: &io::Error) -> bool {
    match error.kind() {
        ErrorKind::ConnectionAborted
        | ErrorKind::ConnectionReset
        | ErrorKind::HostUnreachable
        | ErrorKind::Interrupted
        | ErrorKind::NetworkDown
        | ErrorKind::NetworkUnreachable
        | ErrorKind::OutOfMemory
        | ErrorKind::TimedOut
        | ErrorKind::WouldBlock => true,
        _ => matches!(
            error.raw_os_error(),
            Some(TABLE_FULL | NO_DESCRIPTOR | PROTOCOL | NO_BUFFERS)
        ),
    }
}

/// Waits for the next connection, again where that was interrupted.
///
/// # Errors
///
/// Where the listener refuses one, or is interrupted each of the times that it is called.
pub(crate) fn accept_once(listener: &TcpListener) -> io::Result<(TcpStream, SocketAddr)> {
    for _ in 0..INTERRUPTIONS_MAX {
        match listener.accept() {
            Err(error) if is_interruption(&error) => {}
            answer => return answer,
        }
    }
    Err(io::Error::from(ErrorKind::Interrupted))
}
