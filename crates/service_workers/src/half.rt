//! The halves of a connection.

ghost use Rattle.std.specs.Prelude.{◌≡◌};
ghost use Rattle.std.specs.Io.{ReadsAtMost, WritesAtMost};

use crate::stage::Stage;
use log::{Log, warn};
use socket_options::is_broken;
use std::io::{ErrorKind, Read, Write};
use std::net::{Shutdown, SocketAddr, TcpStream};
use std::sync::atomic::{AtomicU32, AtomicU64, Ordering};
use std::sync::{Arc, Wait};
use std::time::{Clock, Duration};
use std::{io, thread};

/// How many seconds one wait of a write takes at most.
const WRITE_WAIT: u64 = 5;

/// How many waits of a write in a row may pass without a byte accepted, so that a write ends after 60 seconds without one.
const WRITE_WAITS: u32 = 12;

/// How many milliseconds pass between two looks whether the reading of a channel goes on.
pub(crate) const PAUSE_STEP: u64 = 50;

/// How many milliseconds one wait for further bytes takes at most, once a connection is to be ended.
const DRAIN_WAIT: u64 = 100;

/// How many seconds are spent on such reads.
const DRAIN_SECONDS: u64 = 1;

/// How many of them are made at most.
const DRAIN_READS: u32 = 100_000;

/// Which connection it is, for the log.
#[derive(Clone, Copy)]
pub struct Label<'a> {
    pub channel: &'a str,
    pub connection: u32,
    pub peer: SocketAddr,
}

/// One of the two halves of a connection: what is read by, or what is written by. Each failure is one line of the log.
///
/// A read waits while the reading of the channel pauses. Once the service closes, reads find the end of the input. Once the
/// connection is reset by its sender, nothing more is read, also of what was received before: a sender that resets a connection
/// sends over another one what was not acknowledged, and the rest of the first one would come behind that.
#[derive(Drop)]
pub struct Half<'a, H> {
    rt: &'a H,
    stage: &'a AtomicU32,
    paused: &'a AtomicU64,
    channel: u32,
    stream: Arc<TcpStream>,
    label: Label<'a>,
    /// How many bytes were read.
    received: u64,
}

/// Whether a call was interrupted, so that it is to be made again.
fn is_interruption(error: &io::Error) -> bool {
    matches!(error.kind(), ErrorKind::Interrupted)
}

/// Whether a call ended because its time was over.
fn is_timeout(error: &io::Error) -> bool {
    matches!(error.kind(), ErrorKind::WouldBlock | ErrorKind::TimedOut)
}

/// Bounds each wait of a write.
///
/// # Errors
///
/// Where the system refuses it.
pub(crate) fn bound_writes(stream: &TcpStream) -> io::Result<()> {
    stream.set_write_timeout(Some(Duration::from_secs(WRITE_WAIT)))
}

/// Writes at least one byte, or fails once none was accepted for 60 seconds.
fn write_some(mut stream: &TcpStream, buf: &[u8]) -> io::Result<usize>
    ensures { WritesAtMost result buf.now }
{
    for _ in 0..WRITE_WAITS {
        match stream.write(buf) {
            Err(error) if is_timeout(&error) => {}
            answer => return answer,
        }
    }
    Err(io::Error::from(ErrorKind::TimedOut))
}

/// Reads what was received, unless the connection is broken.
fn read_unbroken(mut stream: &TcpStream, buf: &mut [u8]) -> io::Result<usize>
    ensures { ReadsAtMost result buf.new }
{
    let answer = stream.read(buf);
    // What was received before is read first, whatever came after it.
    if answer.is_ok() && is_broken(stream) {
        return Err(io::Error::from_raw_os_error(libc::ECONNRESET));
    }
    answer
}

/// Reads and drops what is received, in one read. Returns whether more may be received.
fn drop_piece(mut stream: &TcpStream) -> bool {
    let mut piece = [0; 4_096];
    match stream.read(&mut piece) {
        Ok(len) => len > 0,
        Err(error) => is_timeout(&error) || is_interruption(&error),
    }
}

impl<'a, H: Log + Clock + Wait> Half<'a, H> {
    /// A half of this stream, which is of a connection of the channel at this index.
    pub fn new(
        rt: &'a H,
        stage: &'a AtomicU32,
        paused: &'a AtomicU64,
        channel: u32,
        stream: Arc<TcpStream>,
        label: Label<'a>,
    ) -> Self
        ensures { result.channel ≡ channel }
    {
        Half {
            rt,
            stage,
            paused,
            channel,
            stream,
            label,
            received: 0,
        }
    }

    /// How many bytes were read by this half.
    pub fn received(&self) -> u64 {
        self.received
    }

    /// Logs a failure, if it is one.
    fn log<X>(&self, what: &str, answer: &io::Result<X>, limit: &str) {
        let Err(error) = answer else {
            return;
        };
        if is_interruption(error) {
            return;
        }
        let Label {
            channel,
            connection,
            peer,
        } = self.label;
        if is_timeout(error) {
            warn!(self.rt; channel, connection, peer:% = peer; "{what} failed: {limit}");
        } else {
            warn!(self.rt; channel, connection, peer:% = peer; "{what} failed: {error}");
        }
    }

    /// Whether the service closes, so that nothing more is read.
    fn is_closing(&self) -> bool {
        Stage::of(self.stage.load(Ordering::SeqCst)) != Stage::Open
    }

    /// Whether the reading of the channel pauses.
    fn is_paused(&self) -> bool {
        let channels = self.paused.load(Ordering::SeqCst);
        channels.checked_shr(self.channel).unwrap_or(0) % 2 == 1
    }

    /// Waits while the reading of the channel pauses, the service doesn't close and the connection isn't broken.
    fn wait_for_room(&self) {
        for _ in self.rt.forever() {
            if !self.is_paused() || self.is_closing() || is_broken(&self.stream) {
                return;
            }
            thread::sleep(self.rt, Duration::from_millis(PAUSE_STEP));
        }
    }

    /// The moment, by the monotonic clock, that is `time` from now; none where the clock can't be read.
    fn after(&self, time: Duration) -> Option<Duration> {
        self.rt.monotonic().ok()?.checked_add(time)
    }

    /// Whether a moment is to come, by the monotonic clock; not where the clock can't be read.
    fn is_before(&self, deadline: Duration) -> bool {
        match self.rt.monotonic() {
            Ok(now) => now < deadline,
            Err(_) => false,
        }
    }

    /// Ends the connection in order: no more is sent, and what is still received is read and dropped, up to the end of the
    /// input and for about a second at most, so that what was written is not lost to a peer that is still sending.
    pub fn drain(&mut self) {
        let stream: &TcpStream = &self.stream;
        let _ = stream.shutdown(Shutdown::Write);
        let wait = Duration::from_millis(DRAIN_WAIT);
        if stream.set_read_timeout(Some(wait)).is_err() {
            return;
        }
        let Some(deadline) = self.after(Duration::from_secs(DRAIN_SECONDS)) else {
            return;
        };
        for _ in 0..DRAIN_READS {
            if !drop_piece(stream) || !self.is_before(deadline) {
                return;
            }
        }
    }
}

impl<'a, H: Log + Clock + Wait> Read for Half<'a, H> {
    fn read(&mut self, buf: &mut [u8]) -> io::Result<usize> {
        self.wait_for_room();
        if self.is_closing() {
            return Ok(0);
        }
        let answer = read_unbroken(&self.stream, buf);
        self.log(
            "reading from the sender",
            &answer,
            "no byte in the time allowed",
        );
        if let Ok(len) = &answer {
            self.received = self.received.saturating_add(*len as u64);
        }
        answer
    }
}

impl<'a, H: Log + Clock + Wait> Write for Half<'a, H> {
    fn write(&mut self, buf: &[u8]) -> io::Result<usize> {
        let answer = write_some(&self.stream, buf);
        self.log("writing to the sender", &answer, "no progress for 60 s");
        answer
    }

    fn flush(&mut self) -> io::Result<()> {
        Ok(())
    }
}
