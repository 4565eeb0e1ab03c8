//! Whether a connection is broken.

use libc::net as c;
use libc::types::pollfd;
use std::net::TcpStream;
use std::os::fd::AsRawFd;

/// Whether a connection ended otherwise than in order: its peer reset it, or answers no probe. What was received before may still be
/// read.
pub fn is_broken(stream: &TcpStream) -> bool {
    let mut asked = [pollfd {
        fd: stream.as_raw_fd(),
        events: 0,
        revents: 0,
    }];
    c::poll(&mut asked, 0) > 0 && asked[0].revents & c::POLLERR != 0
}
