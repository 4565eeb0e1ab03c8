//! The end of a connection by a reset (RFC 9293, 3.10.5).

use libc::net as c;
use std::io;
use std::net::TcpStream;
use std::os::fd::AsRawFd;

/// How many bytes of an address are handed in. All are 0: it is an address of no family.
const ADDRESS_BYTES: u32 = 16;

/// Ends a connection by a reset, and not in order: what was not sent yet is dropped, and the peer's next read or write fails. To
/// connect a socket to an address of no family does that.
///
/// # Errors
///
/// Where the system refuses it. The connection is as it was then.
pub fn reset(stream: &TcpStream) -> io::Result<()> {
    if unsafe { c::connect(stream.as_raw_fd(), &[0; 128], ADDRESS_BYTES) } < 0 {
        return Err(io::Error::from_raw_os_error(os::errno()));
    }
    Ok(())
}
