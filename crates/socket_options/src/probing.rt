//! Keepalive (RFC 1122, 4.2.3.6).

ghost use Rattle.libc.specs.Net.{SockOption};

use libc::net as c;
use std::io;
use std::net::TcpStream;
use std::os::fd::AsRawFd;

/// How many seconds nothing has come before the peer is probed for the first time.
const IDLE_SECONDS: i32 = 60;

/// The seconds between two probes.
const INTERVAL_SECONDS: i32 = 10;

/// How many probes stay unanswered before the connection ends.
const PROBES: i32 = 6;

/// Sets an option whose value is a number.
fn set_number(stream: &TcpStream, level: i32, name: i32, number: i32) -> io::Result<()>
    requires { SockOption level name }
{
    let mut value = [0; 16];
    value[..4].copy_from_slice(&number.to_ne_bytes());
    if unsafe { c::setsockopt(stream.as_raw_fd(), level, name, &value, 4) } < 0 {
        return Err(io::Error::from_raw_os_error(os::errno()));
    }
    Ok(())
}

/// Turns keepalive on: once nothing has come from the peer for 60 seconds, the system probes it every 10 seconds, and
/// after six probes without an answer the connection ends: a read then fails.
///
/// # Errors
///
/// Where the system refuses an option. Those that were set before it stay.
pub fn keep_alive(stream: &TcpStream) -> io::Result<()> {
    set_number(stream, c::IPPROTO_TCP, c::TCP_KEEPIDLE, IDLE_SECONDS)?;
    set_number(stream, c::IPPROTO_TCP, c::TCP_KEEPINTVL, INTERVAL_SECONDS)?;
    set_number(stream, c::IPPROTO_TCP, c::TCP_KEEPCNT, PROBES)?;
    set_number(stream, c::SOL_SOCKET, c::SO_KEEPALIVE, 1)
}
