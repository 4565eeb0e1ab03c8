//! What was sent over a link, as far as later sendings depend on it.

use crate::answers::Reply;
use crate::lately::SentLately;
use book_core::Job;
use std::alloc::{AllocError, Global};

/// The message that was sent last.
#[derive(Clone, Copy, PartialEq, Eq)]
struct LastSent {
    number: u32,
    /// Whether it was sent in an attempt in which nothing acknowledged it.
    is_doubted: bool,
}

/// What was sent over a link.
#[derive(Drop)]
pub(crate) struct Sendings {
    /// How many times the message of the attempt at hand was sent as a whole.
    sends: u32,
    last: Option<LastSent>,
    /// The control ids that were sent over the open connection, where a message with one of them goes over a new one.
    lately: Option<SentLately>,
}

impl Sendings {
    /// Nothing was sent yet.
    pub(crate) fn new() -> Self {
        Sendings {
            sends: 0,
            last: None,
            lately: None,
        }
    }

    /// Nothing was sent yet, and a message with a control id that was sent over the open connection goes over a new one.
    pub(crate) fn parting(alloc: Global) -> Self {
        Sendings {
            sends: 0,
            last: None,
            lately: Some(SentLately::new(alloc)),
        }
    }

    /// Begins an attempt.
    pub(crate) fn begin(&mut self) {
        self.sends = 0;
    }

    /// Begins a connection.
    pub(crate) fn connect(&mut self) {
        if let Some(lately) = &mut self.lately {
            lately.clear();
        }
    }

    /// Counts a message that was sent as a whole.
    pub(crate) fn count(&mut self) {
        self.sends = self.sends.saturating_add(1);
    }

    /// Whether the message of the attempt at hand was sent more than once.
    pub(crate) fn is_sent_again(&self) -> bool {
        self.sends > 1
    }

    /// Notes an attempt that is settled, by what the answers to its message said.
    ///
    /// # Errors
    ///
    /// Where memory is refused. The control id is not among those that were sent over the connection then.
    pub(crate) fn settle(&mut self, job: &Job, reply: Reply) -> Result<(), AllocError> {
        let is_unanswered = self.sends > 0 && !matches!(reply, Reply::Code(_));
        self.last = Some(LastSent {
            number: job.ticket.number,
            is_doubted: is_unanswered || self.is_doubted(job),
        });
        match &mut self.lately {
            Some(lately) if job.ack => lately.note(job.control_id.as_slice()),
            _ => Ok(()),
        }
    }

    /// Whether this message is the one that was sent last, and was sent in an attempt in which nothing acknowledged it.
    pub(crate) fn is_doubted(&self, job: &Job) -> bool {
        match self.last {
            Some(last) => last.number == job.ticket.number && last.is_doubted,
            None => false,
        }
    }

    /// Whether another message with this one's control id was sent over the open connection, one of the last 100.
    pub(crate) fn is_repeated(&self, job: &Job) -> bool {
        let is_another = match self.last {
            Some(last) => last.number != job.ticket.number,
            None => true,
        };
        match &self.lately {
            Some(lately) => is_another && job.ack && lately.has(job.control_id.as_slice()),
            None => false,
        }
    }
}
