//! The two halves of a connection over TCP.

ghost use Rattle.std.specs.Prelude.{◌≡◌};
ghost use Rattle.std.specs.Io.{WritesAtMost};

use crate::door::Incoming;
use log::{Log, warn};
use std::io;
use std::io::{ErrorKind, Read, Write};
use std::net::{Shutdown, SocketAddr, TcpStream};
use std::sync::Arc;
use std::time::Duration;

/// How many seconds one wait of a write takes at most.
const WRITE_WAIT: u64 = 5;

/// How many waits of a write in a row may pass without a byte taken, so that a write ends after 60 seconds without one.
const WRITE_WAITS: u32 = 12;

/// How many milliseconds one wait for what still comes takes at most, once a connection is to be ended.
const DRAIN_WAIT: u64 = 10;

/// How many reads are made then, so that it ends after 10 seconds.
const DRAIN_READS: u32 = 1_000;

/// Which connection it is, for the log.
#[derive(Clone, Copy)]
pub struct Label<'a> {
    pub channel: &'a str,
    pub connection: u32,
    pub peer: SocketAddr,
}

/// One of the two halves of a connection: what is read by, or what is written by. Each failure is one line of the log.
#[derive(Drop)]
pub struct Half<'a, H> {
    rt: &'a H,
    stream: Arc<TcpStream>,
    /// The index in the plan of the channel that the connection was accepted for.
    channel: u32,
    label: Label<'a>,
}

/// Whether a call was interrupted, so that it is to be made again.
pub(crate) fn is_interruption(error: &io::Error) -> bool {
    matches!(error.kind(), ErrorKind::Interrupted)
}

/// Whether a call ended because its time was over.
fn is_timeout(error: &io::Error) -> bool {
    matches!(error.kind(), ErrorKind::WouldBlock | ErrorKind::TimedOut)
}

/// Bounds each wait of a write.
///
/// # Errors
///
/// Where the system refuses it.
pub(crate) fn bound_writes(stream: &TcpStream) -> io::Result<()> {
    stream.set_write_timeout(Some(Duration::from_secs(WRITE_WAIT)))
}

/// Writes at least one byte, or fails once none was taken for 60 seconds.
fn write_some(mut stream: &TcpStream, buf: &[u8]) -> io::Result<usize>
    ensures { WritesAtMost result buf.now }
{
    for _ in 0..WRITE_WAITS {
        match stream.write(buf) {
            Err(error) if is_timeout(&error) => {}
            answer => return answer,
        }
    }
    Err(io::Error::from(ErrorKind::TimedOut))
}

impl<'a, H: Log> Half<'a, H> {
    /// A half of this connection, which was accepted for the channel at this index.
    pub fn new(rt: &'a H, stream: Arc<TcpStream>, channel: u32, label: Label<'a>) -> Self
        ensures { result.channel ≡ channel }
    {
        Half {
            rt,
            stream,
            channel,
            label,
        }
    }

    /// Logs a failure, but for an interruption. It is not inlined, for speed: what a line needs would be cleared for each read
    /// and each write, some 100 instructions a message by an estimate.
    #[inline(never)]
    fn log(&self, what: &str, error: &io::Error) {
        if is_interruption(error) {
            return;
        }
        let Label {
            channel,
            connection,
            peer,
        } = self.label;
        if is_timeout(error) {
            warn!(self.rt; channel, connection, peer:% = peer; "{what} failed: no progress for 60 s");
        } else {
            warn!(self.rt; channel, connection, peer:% = peer; "{what} failed: {error}");
        }
    }
}

impl<'a, H: Log> Read for Half<'a, H> {
    fn read(&mut self, buf: &mut [u8]) -> io::Result<usize> {
        let mut stream: &TcpStream = &self.stream;
        let answer = stream.read(buf);
        if let Err(error) = &answer {
            self.log("reading from the sender", error);
        }
        answer
    }
}

impl<'a, H: Log> Write for Half<'a, H> {
    fn write(&mut self, buf: &[u8]) -> io::Result<usize> {
        let answer = write_some(&self.stream, buf);
        if let Err(error) = &answer {
            self.log("writing to the sender", error);
        }
        answer
    }

    fn flush(&mut self) -> io::Result<()> {
        Ok(())
    }
}

impl<'a, H: Log> Incoming for Half<'a, H> {
    ghost channel = { λ half. half.channel };

    fn channel(&self) -> u32 {
        self.channel
    }

    fn drain(&mut self) {
        let mut stream: &TcpStream = &self.stream;
        let _ = stream.shutdown(Shutdown::Write);
        if stream
            .set_read_timeout(Some(Duration::from_millis(DRAIN_WAIT)))
            .is_err()
        {
            return;
        }
        let mut piece = [0; 4_096];
        for _ in 0..DRAIN_READS {
            match stream.read(&mut piece) {
                Ok(0) => return,
                Err(error) if !is_timeout(&error) && !is_interruption(&error) => return,
                _ => {}
            }
        }
    }
}
