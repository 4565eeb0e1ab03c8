//! What a link over TCP logs.

ghost use Rattle.std.specs.Prelude.{◌≡◌};

use crate::answers::Reply;
use crate::tcp_link::TcpLink;
use crate::way::Way;
use crate::words::{Cause, Failure};
use book_core::Job;
use dest_queue::FailCause;
use log::{Log, info, warn};
use log_text::ControlId;
use std::net::{Net, TcpStream};
use std::time::Clock;

/// What was logged last of a link's connection.
#[derive(Clone, Copy, PartialEq, Eq)]
pub(crate) enum LoggedState {
    Nothing,
    Connected,
    Lost,
}

impl<'a, R: Net<Stream = TcpStream> + Log + Clock, W: Way> TcpLink<'a, R, W> {
    /// Logs what became of the connection.
    fn tell(&self, words: &str) {
        info!(self.rt; destination = self.name(), address = self.address(); "{words}");
    }

    /// Notes that a connection was opened, and logs it where none was before or the last one was lost.
    pub(crate) fn tell_connected(&mut self)
        ensures { self.new ≡ self.old }
    {
        self.way.note_connected();
        match self.logged {
            LoggedState::Nothing => self.tell("connected"),
            LoggedState::Lost => self.tell("connected again"),
            LoggedState::Connected => {}
        }
        self.logged = LoggedState::Connected;
    }

    /// Logs that the connection was lost, where there was one.
    pub(crate) fn tell_lost(&mut self)
        ensures { self.new ≡ self.old }
    {
        if self.stream.is_none() && self.logged == LoggedState::Connected {
            self.tell("connection lost");
            self.logged = LoggedState::Lost;
        }
    }

    /// Notes why the connection failed, if it did, and for how many seconds no other is tried.
    fn note_cause(&mut self, wait: Option<u32>)
        ensures { self.new ≡ self.old }
    {
        let cause = self.cause.take();
        if let Some(cause) = &cause {
            self.way.note_fault(cause, wait);
        }
        self.cause = cause;
    }

    /// Notes and logs why no connection could be opened between attempts, and that no other is tried for this many seconds.
    pub(crate) fn tell_unconnected(&mut self, wait: u32)
        ensures { self.new ≡ self.old }
    {
        if matches!(self.cause, None | Some(Cause::Halted)) {
            return;
        }
        self.tell_lost();
        self.note_cause(Some(wait));
        if let Some(cause) = &self.cause {
            warn!(self.rt; destination = self.name(), address = self.address(); "{cause}");
        }
    }

    /// Logs an attempt that failed, and a connection that was lost by it, and notes the cause of the loss.
    pub(crate) fn tell_attempt(&mut self, job: &Job, reply: Reply)
        ensures { self.new ≡ self.old }
    {
        self.tell_lost();
        self.note_cause(None);
        let failure = Failure {
            reply,
            cause: self.cause.as_ref(),
        };
        warn!(self.rt; destination = self.name(), message = job.ticket.number, control_id:% = ControlId(job.control_id.as_slice()), attempt = job.ticket.attempt, attempts = self.attempts(); "{failure}");
    }

    /// Logs a message that was sent a second time within its attempt.
    pub(crate) fn tell_sent_again(&self, job: &Job) {
        warn!(self.rt; destination = self.name(), message = job.ticket.number, control_id:% = ControlId(job.control_id.as_slice()), attempt = job.ticket.attempt; "sent once more within the attempt, over a new connection: the destination closed the kept one before an answer, and may have received the message");
    }

    /// Logs a message that failed for good, and why its last attempt failed.
    pub(crate) fn tell_failure(&self, job: &Job, reply: Reply, cause: FailCause) {
        let words = match cause {
            FailCause::Rejected => "message failed: rejected by the destination",
            FailCause::Exhausted => "message failed: no attempt is left",
            FailCause::Cancelled => "message failed: cancelled",
        };
        let last = Failure {
            reply,
            cause: self.cause.as_ref(),
        };
        let doubt = if cause == FailCause::Exhausted && self.sendings.is_doubted(job) {
            "; it may have been received, or be received late"
        } else {
            ""
        };
        warn!(self.rt; target: "always", destination = self.name(), message = job.ticket.number, control_id:% = ControlId(job.control_id.as_slice()), attempts = job.ticket.attempt; "{words} ({last}){doubt}");
    }

    /// Logs a message whose last attempt was cut off by a halt: it failed, and may have been delivered.
    pub(crate) fn tell_cut(&self, job: &Job) {
        warn!(self.rt; target: "always", destination = self.name(), message = job.ticket.number, control_id:% = ControlId(job.control_id.as_slice()), attempts = job.ticket.attempt; "message failed: its last attempt was cut off by the stop, it may have been delivered");
    }
}
