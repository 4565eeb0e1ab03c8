//! How a link over TCP opens a connection.

ghost use Rattle.std.specs.Prelude.{◌≡◌};
ghost use Rattle.std.specs.Iterator.{IsFinite};

use crate::socket::{drop_input, is_own_lack, wait_for};
use crate::tcp_link::{Call, PREPARE_SECONDS_MAX, SLICE, SLICES_MAX, TcpLink};
use crate::way::Way;
use log::{Log, warn};
use socket_options::{Spare, keep_alive};
use std::io;
use std::io::ErrorKind;
use std::net::{Net, SocketAddr, TcpStream, ToSocketAddrs};
use std::time::{Clock, Duration};

/// The milliseconds that a link waits where the system lacks something for a connection, before it tries again.
const LACK_WAIT: u64 = 100;

/// How often it waits at most: for ten times the longest timeout of a plan.
const WAITS_MAX: u32 = 360_000;

impl<'a, R: Net<Stream = TcpStream> + Log + Clock, W: Way> TcpLink<'a, R, W> {
    /// How long connecting to one address may last. Between attempts each address has the timeout, ten seconds at most, so that
    /// one that doesn't answer takes nothing from those after it.
    fn connect_limit(&self, call: Call) -> io::Result<Duration> {
        match call {
            Call::Prepare if !self.way.is_halted() => Ok(
                self.timeout().min(Duration::from_secs(PREPARE_SECONDS_MAX)),
            ),
            _ => self.limit(),
        }
    }

    /// Opens a stream to the first of these addresses that answers. Where none does, the error is the first that is no lack
    /// of the system's own, if there is one.
    fn open_first<I: Iterator<Item = SocketAddr>>(
        &self,
        call: Call,
        addresses: I,
    ) -> io::Result<TcpStream>
        requires { I.can_next addresses × IsFinite (I.remaining addresses) }
    {
        let mut first = io::Error::from(ErrorKind::AddrNotAvailable);
        let mut is_first = true;
        for address in addresses {
            match TcpStream::connect_timeout(self.rt, &address, self.connect_limit(call)?) {
                Ok(stream) => return Ok(stream),
                Err(error) => {
                    if is_first || is_own_lack(&first) {
                        first = error;
                    }
                    is_first = false;
                }
            }
        }
        Err(first)
    }

    /// Opens a stream to the destination once.
    fn open_once(&mut self, call: Call) -> io::Result<TcpStream>
        ensures { self.new ≡ self.old }
    {
        let mut addresses = self.address().to_socket_addrs(self.rt);
        if addresses.is_err() && !Spare::new().is_held() {
            // No descriptor is left to look the name up by, but for the one that is held back.
            self.spare.give_up();
            addresses = self.address().to_socket_addrs(self.rt);
        }
        let addresses = addresses?;
        self.spare.give_up();
        self.open_first(call, addresses)
    }

    /// A stream to the destination. Where the system lacks something for it, it is tried again until the attempt has to end.
    fn open_patiently(&mut self, call: Call) -> io::Result<TcpStream>
        ensures { self.new ≡ self.old }
    {
        let mut is_waiting = false;
        'waits: for _ in 0..WAITS_MAX {
            let error = match self.open_once(call) {
                Ok(stream) => return Ok(stream),
                Err(error) => error,
            };
            if !is_own_lack(&error) || self.limit().is_err() {
                return Err(error);
            }
            if !is_waiting {
                warn!(self.rt; destination = self.name(); "can't connect yet: {error}");
                is_waiting = true;
            }
            self.rt.sleep(Duration::from_millis(LACK_WAIT));
        }
        Err(io::Error::from(ErrorKind::TimedOut))
    }

    /// A stream to the destination, with its options. Blocks are sent as soon as they are written.
    fn open(&mut self, call: Call) -> io::Result<TcpStream>
        ensures { self.new ≡ self.old }
    {
        let stream = self.open_patiently(call)?;
        let timeout = self.timeout();
        stream.set_read_timeout(Some(timeout))?;
        stream.set_write_timeout(Some(timeout))?;
        if self.drops_answers() {
            stream.set_nonblocking(true)?;
        }
        stream.set_nodelay(true)?;
        keep_alive(&stream)?;
        Ok(stream)
    }

    /// Opens a new connection, and drops what was left of an earlier one.
    pub(crate) fn reopen(&mut self, call: Call) -> io::Result<()>
        ensures { self.new ≡ self.old }
    {
        self.close();
        self.ended = false;
        self.cause = None;
        // To connect may take longer than its limit, where a name is looked up.
        self.free_waits = 0;
        let stream = self.open(call)?;
        self.read_limit = self.timeout();
        self.write_limit = self.timeout();
        self.stream = Some(stream);
        self.attempts_over = 0;
        self.sendings.connect();
        Ok(())
    }

    /// Waits for a while whether a new connection stays open, where the last one was closed before an answer.
    ///
    /// # Errors
    ///
    /// `ConnectionAborted` where it is closed before then, `TimedOut` where delivering is halted.
    fn stay_open(&self) -> io::Result<()> {
        let (Some(stream), true) = (&self.stream, self.watch > 0) else {
            return Ok(());
        };
        let Some(deadline) = self.after(Duration::from_secs(u64::from(self.watch))) else {
            return Ok(());
        };
        for _ in 0..SLICES_MAX {
            if self.way.is_halted() {
                return Err(io::Error::from(ErrorKind::TimedOut));
            }
            let left = deadline.saturating_sub(self.rt.monotonic()?);
            if left < Duration::from_millis(1) {
                return Ok(());
            }
            let ready = wait_for(stream, false, left.min(Duration::from_millis(SLICE)));
            if ready.is_ended() {
                return Err(io::Error::from(ErrorKind::ConnectionAborted));
            }
            if ready.is_readable() {
                // What it sends unasked is dropped once a message is to be sent.
                return Ok(());
            }
        }
        Ok(())
    }

    /// Drops what has arrived on the connection: nothing was sent over it yet, so it answers nothing.
    pub(crate) fn drop_unasked(&mut self)
        ensures { self.new ≡ self.old }
    {
        if let Some(stream) = &mut self.stream {
            // An end of the input is seen by the next look or call.
            drop_input(stream);
        }
    }

    /// Opens a connection between attempts, and waits whether it stays open where the last one didn't.
    pub(crate) fn open_ahead(&mut self) -> io::Result<()>
        ensures { self.new ≡ self.old }
    {
        self.reopen(Call::Prepare)?;
        self.stay_open()?;
        self.drop_unasked();
        self.tell_connected();
        Ok(())
    }
}
