//! A link over TCP.

ghost use Rattle.std.specs.Prelude.{◌≡◌, ◌≤◌, true, length, IfOk};
ghost use Rattle.conn_worker.specs.Faults.{with_fault};

use crate::answers::Reply;
use crate::link::{Link, LinkFault};
use crate::link_log::LoggedState;
use crate::sendings::Sendings;
use crate::socket::{drop_input, is_end, wait_for};
use crate::watching::next_watch;
use crate::way::Way;
use crate::words::Cause;
use book_core::Job;
use dest_queue::{FailCause, Outcome, SlotState};
use fixed_numbers::RECEIVES_MAX;
use log::{Log, warn};
use plan_text::Await;
use socket_options::{Spare, reset};
use std::alloc::Global;
use std::io;
use std::io::{ErrorKind, Read, Write};
use std::marker::Model;
use std::net::{Net, Shutdown, TcpStream};
use std::time::{Clock, Duration};

/// How often one call may be interrupted before that is a fault.
const INTERRUPTIONS_MAX: u32 = 1_000;

/// How many timeouts an attempt may last.
const TIMEOUTS_MAX: u32 = 10;

/// How many waits of an attempt may last a whole timeout each: one timeout less than an attempt may last.
const FREE_WAITS: u32 = 9;

/// The most seconds that the end of a connection may last.
const END_SECONDS_MAX: u64 = 10;

/// The milliseconds that a write waits for room where the destination sends nothing more and its answers are not awaited.
const ENDED_WAIT: u64 = 10;

/// How many writes one block may take.
const WRITES_MAX: u32 = 10_000_000;

/// How many times something may come while a connection is ended.
const PIECES_MAX: u32 = 10_000_000;

/// The most seconds that connecting to one address may last while no attempt is under way.
pub(crate) const PREPARE_SECONDS_MAX: u64 = 10;

/// How long one wait may last that can be halted, in milliseconds.
pub(crate) const SLICE: u64 = 250;

/// How many such waits there may be for one read.
pub(crate) const SLICES_MAX: u32 = 100_000;

/// The calls of a link.
#[derive(Clone, Copy)]
pub(crate) enum Call {
    /// To connect while no attempt is under way.
    Prepare,
    Connect,
    Send,
    Receive,
}

/// A link over TCP to the destination that its way names. The destination's timeout is the limit on connecting to one of its
/// addresses, on a write that makes no progress and on each read, and ten times the timeout is that on an attempt. Each attempt
/// that failed is one line of the log, and so is a message that failed for good.
///
/// Where the system lacks descriptors, ports or memory for a connection, the link waits and tries again until the attempt has
/// to end. A descriptor is held back for the connection while there is none.
///
/// What a destination sends whose answers are not awaited is dropped as it is received.
///
/// Between attempts, by `prepare`, connecting to one address lasts for the timeout at most, and no longer than ten seconds;
/// then the next address of the name is tried. Where all of them failed, that is one line of the log, and no other connect is
/// made there before the destination's interval is over.
///
/// A proxy accepts connections also while the destination behind it is down, and closes them. So after an attempt whose
/// connection was closed before an answer, a new connection has to stay open for a while before a message is taken for it: at
/// first for the timeout or ten seconds, whichever is less, and then for longer each time, up to a minute. One that is closed
/// before then counts as a connect that failed.
///
/// A connection that is given up since an answer or room for a message was waited for too long is reset, so that its peer is less
/// likely to take what it has not read yet. Where answers are dropped it is not: what was sent before is counted as delivered.
#[derive(Drop)]
pub struct TcpLink<'a, R, W: Way> {
    pub(crate) rt: &'a R,
    pub(crate) way: W,
    pub(crate) stream: Option<TcpStream>,
    pub(crate) spare: Spare,
    faults: u64,
    /// Why the last connection failed, since it was opened or the attempt at hand began.
    pub(crate) cause: Option<Cause>,
    /// How many receives the attempt at hand has made.
    receives: u32,
    /// Whether the last call met the end of the connection.
    pub(crate) ended: bool,
    /// How many attempts have begun over the connection, that at hand included.
    pub(crate) attempts_over: u32,
    /// For how many seconds a new connection is watched before a message is taken for it: 0 unless the connection of the last
    /// attempt was closed before an answer.
    pub(crate) watch: u32,
    /// What was sent.
    pub(crate) sendings: Sendings,
    /// When the attempt at hand ends, or the wait for what the system lacks between attempts, by the monotonic clock, where that
    /// can be read.
    deadline: Option<Duration>,
    /// How many waits of the attempt at hand may still last a whole timeout each, whatever the clock says.
    pub(crate) free_waits: u32,
    /// The limit on each read that the stream has.
    pub(crate) read_limit: Duration,
    /// The limit on each write that the stream has.
    pub(crate) write_limit: Duration,
    pub(crate) logged: LoggedState,
    /// The moment, by the monotonic clock, before which no connect is made between attempts.
    retry_at: Option<Duration>,
}

impl<'a, R, W: Way> Model for TcpLink<'a, R, W> {
    ghost use Rattle.delivery_worker.specs.inner.Links.{LinkView};

    ghost Value = { LinkView };

    ghost view = { λ link. record {
      faults = link.faults;
      leads_to = W.leads_to link.way;
    } };
}

/// Reads, again where that was interrupted.
fn read(stream: &mut TcpStream, buffer: &mut [u8]) -> io::Result<usize>
    ensures { IfOk result (λ len. len ≤ length buffer.new) }
{
    for _ in 0..INTERRUPTIONS_MAX {
        match stream.read(buffer) {
            Err(error) if error.kind() == ErrorKind::Interrupted => {}
            answer => return answer,
        }
    }
    Err(io::Error::from(ErrorKind::Interrupted))
}

impl<'a, R: Net<Stream = TcpStream> + Log + Clock, W: Way> TcpLink<'a, R, W> {
    /// A link that is not connected yet, and leads where its way does.
    pub fn new(rt: &'a R, way: W) -> Self
        ensures faults { result.faults ≡ 0 }
        ensures leads { result.leads_to ≡ W.leads_to way }
    {
        TcpLink {
            rt,
            way,
            stream: None,
            spare: Spare::new(),
            faults: 0,
            cause: None,
            receives: 0,
            ended: false,
            attempts_over: 0,
            watch: 0,
            sendings: Sendings::new(),
            deadline: None,
            free_waits: 0,
            read_limit: Duration::ZERO,
            write_limit: Duration::ZERO,
            logged: LoggedState::Nothing,
            retry_at: None,
        }
    }

    /// A link over which a message goes over a new connection where one of the last 100 messages that were sent over the open one
    /// has its control id (MSH-10), and the destination acknowledges.
    pub fn parting(self, alloc: Global) -> Self
        ensures { result ≡ self.entry }
    {
        TcpLink {
            sendings: Sendings::parting(alloc),
            ..self
        }
    }

    /// The destination's name; empty where the plan has none.
    pub(crate) fn name(&self) -> &str {
        match self.way.destination() {
            Some(destination) => destination.name(),
            None => "",
        }
    }

    /// The destination's address; empty where the plan has none.
    pub(crate) fn address(&self) -> &str {
        match self.way.destination() {
            Some(destination) => destination.address(),
            None => "",
        }
    }

    /// How many attempts the destination allows.
    pub(crate) fn attempts(&self) -> u32 {
        match self.way.destination() {
            Some(destination) => destination.attempts(),
            None => 0,
        }
    }

    /// The seconds between two attempts.
    fn interval(&self) -> u32 {
        match self.way.destination() {
            Some(destination) => destination.interval(),
            None => 0,
        }
    }

    /// The destination's timeout, in seconds.
    fn seconds(&self) -> u32 {
        match self.way.destination() {
            Some(destination) => destination.timeout(),
            None => 0,
        }
    }

    /// The destination's timeout.
    pub(crate) fn timeout(&self) -> Duration {
        Duration::from_secs(u64::from(self.seconds()))
    }

    /// Whether the destination's answers are not awaited.
    pub(crate) fn drops_answers(&self) -> bool {
        match self.way.destination() {
            Some(destination) => destination.wait() == Await::None,
            None => false,
        }
    }

    /// How long one wait of at most `limit` may last before a halt is looked for.
    fn slice(&self, limit: Duration) -> Duration {
        if self.way.can_halt() {
            limit.min(Duration::from_millis(SLICE))
        } else {
            limit
        }
    }

    /// The moment, by the monotonic clock, that is `time` from now; none where the clock can't be read.
    pub(crate) fn after(&self, time: Duration) -> Option<Duration> {
        self.rt.monotonic().ok()?.checked_add(time)
    }

    /// How long one call may last: the timeout, or what is left of the attempt. Nothing is left once it is halted.
    pub(crate) fn limit(&self) -> io::Result<Duration> {
        if self.way.is_halted() {
            return Err(io::Error::from(ErrorKind::TimedOut));
        }
        let timeout = self.timeout();
        let Some(deadline) = self.deadline else {
            return Ok(timeout);
        };
        let left = deadline.saturating_sub(self.rt.monotonic()?);
        if left < Duration::from_millis(1) {
            return Err(io::Error::from(ErrorKind::TimedOut));
        }
        Ok(timeout.min(left))
    }

    /// How long the next wait of an attempt may last. It exists for speed: the first nine waits over a connection that was
    /// open may last a timeout each, since an attempt may last ten, so the clock isn't read for them.
    fn next_limit(&mut self) -> io::Result<Duration>
        ensures { self.new ≡ self.old }
    {
        if self.free_waits == 0 || self.way.is_halted() {
            return self.limit();
        }
        self.free_waits -= 1;
        Ok(self.timeout())
    }

    /// Closes the stream, and holds a descriptor back for the next one.
    pub(crate) fn close(&mut self)
        ensures { self.new ≡ self.old }
    {
        self.stream = None;
        self.spare.take_back();
    }

    /// Writes bytes. Where answers are not awaited, what is received meanwhile is dropped.
    fn write(&mut self, bytes: &[u8]) -> io::Result<()>
        ensures { self.new ≡ self.old }
    {
        let mut rest = bytes;
        let mut limit = self.next_limit()?;
        'writes: for _ in 0..WRITES_MAX {
            if rest.is_empty() {
                return Ok(());
            }
            let slice = self.slice(limit);
            let Some(stream) = &mut self.stream else {
                return Err(io::Error::from(ErrorKind::NotConnected));
            };
            if slice != self.write_limit {
                stream.set_write_timeout(Some(slice))?;
                self.write_limit = slice;
            }
            match stream.write(rest) {
                Ok(0) => return Err(io::Error::from(ErrorKind::WriteZero)),
                Ok(len) => {
                    rest = &rest[len..];
                    if !rest.is_empty() {
                        limit = self.next_limit()?;
                    }
                }
                Err(error) => match error.kind() {
                    ErrorKind::Interrupted => {}
                    ErrorKind::WouldBlock => limit = self.wait_to_write(limit)?,
                    _ => return Err(error),
                },
            }
        }
        Err(io::Error::from(ErrorKind::TimedOut))
    }

    /// What is left of the limit on a write that made no progress for a slice of it. Where answers are not awaited, it waits
    /// until there is room for what is to be sent, and drops what was received; else the write itself has waited.
    fn wait_to_write(&mut self, limit: Duration) -> io::Result<Duration>
        ensures { self.new ≡ self.old }
    {
        let waited = if self.drops_answers() {
            self.wait_and_drop(limit)?
        } else {
            self.write_limit
        };
        let left = limit.saturating_sub(waited);
        if left < Duration::from_millis(1) || self.way.is_halted() {
            return Err(io::Error::from(ErrorKind::TimedOut));
        }
        Ok(left)
    }

    /// Waits until there is room for what is to be sent, for a slice of the limit at most, and drops what was received.
    /// Returns how long that lasted. A socket whose input is at its end is always ready to be read, so a wait for both ends at
    /// once; it sleeps for a moment then.
    fn wait_and_drop(&mut self, limit: Duration) -> io::Result<Duration>
        ensures { self.new ≡ self.old }
    {
        let begun = self.rt.monotonic()?;
        let slice = self.slice(limit);
        let Some(stream) = &mut self.stream else {
            return Err(io::Error::from(ErrorKind::NotConnected));
        };
        wait_for(stream, true, slice);
        if !drop_input(stream) {
            self.rt.sleep(slice.min(Duration::from_millis(ENDED_WAIT)));
        }
        Ok(self.rt.monotonic()?.saturating_sub(begun))
    }

    /// Waits until something can be read, for `limit` at most, and ends early at a halt.
    fn wait_to_read(&self, limit: Duration) -> io::Result<()> {
        let (Some(stream), Some(deadline)) = (&self.stream, self.after(limit)) else {
            return Ok(());
        };
        let mut left = limit;
        for _ in 0..SLICES_MAX {
            if left < Duration::from_millis(1) || self.way.is_halted() {
                return Err(io::Error::from(ErrorKind::TimedOut));
            }
            if wait_for(stream, false, self.slice(left)).is_readable() {
                return Ok(());
            }
            left = deadline.saturating_sub(self.rt.monotonic()?);
        }
        Err(io::Error::from(ErrorKind::TimedOut))
    }

    /// Reads bytes.
    fn read(&mut self, buffer: &mut [u8]) -> io::Result<usize>
        ensures same { self.new ≡ self.old }
        ensures bound { IfOk result (λ len. len ≤ length buffer.new) }
    {
        let limit = self.next_limit()?;
        if self.way.can_halt() {
            self.wait_to_read(limit)?;
        }
        let Some(stream) = &mut self.stream else {
            return Err(io::Error::from(ErrorKind::NotConnected));
        };
        if limit != self.read_limit {
            stream.set_read_timeout(Some(limit))?;
            self.read_limit = limit;
        }
        read(stream, buffer)
    }

    /// Shuts the sending side, and drops what is received up to the end, for at most the timeout and ten seconds.
    fn end_in_order(&self, stream: &mut TcpStream) -> io::Result<()> {
        stream.shutdown(Shutdown::Write)?;
        let longest = self.timeout().min(Duration::from_secs(END_SECONDS_MAX));
        let Some(deadline) = self.after(longest) else {
            return Ok(());
        };
        for _ in 0..PIECES_MAX {
            let left = deadline.saturating_sub(self.rt.monotonic()?);
            if left < Duration::from_millis(1) || self.way.is_halted() {
                return Err(io::Error::from(ErrorKind::TimedOut));
            }
            if wait_for(stream, false, self.slice(left)).is_readable() && !drop_input(stream) {
                return Ok(());
            }
        }
        Err(io::Error::from(ErrorKind::TimedOut))
    }

    /// Why a call failed.
    fn cause_of(&self, call: Call, error: io::Error) -> Cause {
        let seconds = self.seconds();
        if self.way.is_halted() {
            return Cause::Halted;
        }
        let is_slow = match error.kind() {
            ErrorKind::WouldBlock => true,
            ErrorKind::TimedOut => error.raw_os_error().is_none(),
            _ => false,
        };
        let is_attempt = !matches!(call, Call::Prepare);
        if is_attempt && is_slow && self.limit().is_err() {
            return Cause::TimeSpent(seconds.saturating_mul(TIMEOUTS_MAX));
        }
        match call {
            Call::Prepare if error.kind() == ErrorKind::ConnectionAborted => Cause::ClosedAtOnce,
            Call::Prepare | Call::Connect if error.kind() == ErrorKind::WouldBlock => Cause::NoPort,
            Call::Prepare | Call::Connect => Cause::NoConnection(error),
            _ if is_end(&error) => Cause::Closed,
            Call::Send if is_slow => Cause::NoProgress(seconds),
            Call::Receive if is_slow => Cause::NoAnswer(seconds),
            _ => Cause::Broken(error),
        }
    }

    /// Resets the connection where it is given up since something was waited for too long, so that what its peer has not read yet
    /// is less likely to be taken. Where answers are dropped, what was sent before is counted as delivered, so it isn't reset.
    fn reset_late(&self) {
        let is_late = matches!(
            self.cause,
            Some(Cause::NoAnswer(_) | Cause::NoProgress(_) | Cause::TimeSpent(_))
        );
        if let (Some(stream), true) = (&self.stream, is_late && !self.drops_answers()) {
            // Where that is refused, the connection is closed in order.
            let _ = reset(stream);
        }
    }

    /// Counts a fault, and ends the connection.
    fn fault(&mut self, call: Call, error: io::Error) -> LinkFault
        ensures counted { self.new.faults ≡ with_fault true self.old.faults }
        ensures leads { self.new.leads_to ≡ self.old.leads_to }
    {
        self.ended = is_end(&error);
        self.cause = Some(self.cause_of(call, error));
        self.reset_late();
        self.close();
        self.faults = self.faults.saturating_add(1);
        LinkFault
    }

    /// Notes what the next attempts need of one that is settled. Where memory is refused for that, the connection is closed.
    fn note_attempt(&mut self, job: &Job, reply: Reply)
        ensures { self.new ≡ self.old }
    {
        let is_cut = reply == Reply::Nothing && matches!(self.cause, Some(Cause::Closed));
        self.watch = if is_cut {
            next_watch(self.watch, self.seconds())
        } else {
            0
        };
        if self.sendings.settle(job, reply).is_err() {
            self.close();
        }
    }

    /// Ends the connection in order where its answers are dropped, and closes it.
    fn end(&mut self, drops: bool)
        ensures { self.new ≡ self.old }
    {
        let Some(mut stream) = self.stream.take() else {
            return;
        };
        if !drops {
            return;
        }
        if let Err(error) = self.end_in_order(&mut stream) {
            warn!(self.rt; destination = self.name(); "not closed by the destination in time, what was sent last may be lost: {error}");
        }
    }

    /// Takes up the plan in force. Where the link leads elsewhere by it, or answers are awaited otherwise, the connection is
    /// ended.
    fn renew(&mut self)
        ensures { self.new ≡ self.old }
    {
        let drops = self.drops_answers();
        if self.way.renew() || self.drops_answers() != drops {
            self.end(drops);
            self.way.note_moved();
            self.logged = LoggedState::Nothing;
            self.retry_at = None;
            self.watch = 0;
        }
    }

    /// Drops what has arrived on the connection. Returns whether it is open, and nothing is left that could be taken for an answer to
    /// what is sent next. Where answers are not awaited, nothing is taken for one: what arrives meanwhile is left to the next
    /// call, since a stream that is closed with bytes unread is reset, and a reset takes from the destination what it has not
    /// read yet.
    fn is_emptied(&mut self) -> bool
        ensures { self.new ≡ self.old }
    {
        let drops = self.drops_answers();
        match &mut self.stream {
            Some(stream) => {
                drop_input(stream)
                    && (drops || !wait_for(stream, false, Duration::ZERO).is_readable())
            }
            None => false,
        }
    }

    /// Whether a connect failed so shortly before that none is made yet.
    fn is_too_soon(&self) -> bool {
        match (self.retry_at, self.rt.monotonic()) {
            (Some(at), Ok(now)) => now < at,
            _ => false,
        }
    }

    /// Notes a connect that failed between attempts.
    fn unconnected(&mut self, error: io::Error) -> LinkFault
        ensures counted { self.new.faults ≡ with_fault true self.old.faults }
        ensures leads { self.new.leads_to ≡ self.old.leads_to }
    {
        let fault = self.fault(Call::Prepare, error);
        let wait = self.interval();
        self.retry_at = self.after(Duration::from_secs(u64::from(wait)));
        self.tell_unconnected(wait);
        fault
    }
}

impl<R: Net<Stream = TcpStream> + Log + Clock, W: Way> Link for TcpLink<'_, R, W> {
    ghost fault_count = { λ link. link.faults };

    ghost leads_to = { λ link. link.leads_to };

    fn begin(&mut self) {
        self.deadline = self.after(self.timeout().saturating_mul(TIMEOUTS_MAX));
        self.free_waits = FREE_WAITS;
        self.cause = None;
        self.receives = 0;
        self.sendings.begin();
        self.attempts_over = self.attempts_over.saturating_add(1);
    }

    fn is_open(&mut self) -> bool {
        let drops = self.drops_answers();
        let is_open = match &mut self.stream {
            Some(stream) if drops => drop_input(stream),
            Some(stream) => !wait_for(stream, false, Duration::ZERO).is_ended(),
            None => false,
        };
        if !is_open {
            self.close();
        }
        is_open
    }

    fn is_open_for(&mut self, job: &Job) -> bool {
        if self.sendings.is_repeated(job) {
            self.close();
        }
        self.is_open()
    }

    /// Whether the last call met the end of a connection over which an earlier attempt was made. One that is ended in the first
    /// attempt over it was not ended for being idle, so nothing is sent once more for that.
    fn was_ended(&self) -> bool {
        self.ended && self.attempts_over > 1
    }

    fn has_interval(&self) -> bool {
        self.interval() > 0
    }

    fn settled(&mut self, job: &Job, reply: Reply, outcome: Outcome, state: Option<SlotState>) {
        self.way.note(outcome);
        self.note_attempt(job, reply);
        if self.sendings.is_sent_again() {
            self.way.note_sent_again();
            self.tell_sent_again(job);
        }
        let is_halted = matches!(self.cause, Some(Cause::Halted));
        if outcome != Outcome::Delivered && !is_halted {
            self.tell_attempt(job, reply);
        }
        match state {
            Some(SlotState::Failed(FailCause::Exhausted)) if is_halted => {
                self.way.note_cut();
                self.tell_cut(job);
            }
            Some(SlotState::Failed(cause)) => self.tell_failure(job, reply, cause),
            _ => {}
        }
    }

    fn finish(&mut self) {
        self.end(self.drops_answers());
    }

    fn connect(&mut self) -> Result<(), LinkFault> {
        match self.reopen(Call::Connect) {
            Ok(()) => {
                self.attempts_over = 1;
                self.drop_unasked();
                self.tell_connected();
                Ok(())
            }
            Err(error) => Err(self.fault(Call::Connect, error)),
        }
    }

    fn prepare(&mut self) -> Result<(), LinkFault> {
        self.renew();
        if self.way.destination().is_none() || self.way.is_halted() {
            return Err(LinkFault);
        }
        if self.is_emptied() {
            return Ok(());
        }
        self.close();
        if self.is_too_soon() {
            return Err(LinkFault);
        }
        let longest = Duration::from_secs(PREPARE_SECONDS_MAX);
        self.deadline = self.after(self.timeout().min(longest));
        match self.open_ahead() {
            Ok(()) => Ok(()),
            Err(error) => Err(self.unconnected(error)),
        }
    }

    fn send(&mut self, bytes: &[u8]) -> Result<(), LinkFault> {
        match self.write(bytes) {
            Ok(()) => {
                self.sendings.count();
                Ok(())
            }
            Err(error) => Err(self.fault(Call::Send, error)),
        }
    }

    fn receive(&mut self, buffer: &mut [u8]) -> Result<usize, LinkFault> {
        self.receives = self.receives.saturating_add(1);
        if self.receives >= RECEIVES_MAX {
            self.cause = Some(Cause::ReceivesSpent);
        }
        match self.read(buffer) {
            Ok(len) => {
                self.ended = len == 0;
                if self.ended {
                    self.cause = Some(Cause::Closed);
                }
                Ok(len)
            }
            Err(error) => Err(self.fault(Call::Receive, error)),
        }
    }

    fn faults(&self) -> u64 {
        self.faults
    }
}
