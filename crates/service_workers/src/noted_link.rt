//! A link that notes when each attempt was made and how it went.

ghost use Rattle.std.specs.Prelude.{◌≡◌};

use crate::site::{Crew, Site};
use crate::way::PlanWay;
use answer_words::answer_words;
use book_core::Job;
use book_lock::Sharing;
use delivery_worker::{Link, LinkFault, Reply, TcpLink};
use dest_queue::{Outcome, SlotState};
use hl7_head::AckCode;
use log::{Log, warn};
use log_text::ControlId;
use message_notes::{AnswerText, DeliveryNote};
use std::alloc::AllocError;

/// The most bytes of the answers to one sending that are kept until it is settled. What a destination says behind them isn't shown.
const HEARD_MAX: usize = 65_536;

/// A link over TCP that notes each attempt at its site: when it was settled, why it failed, and what the destination said.
#[derive(Drop)]
pub(crate) struct NotedLink<'s, 'x, A: Sharing, H: Crew> {
    site: &'s Site<'x, A, H>,
    /// The destination, by its index in the plan.
    destination: u32,
    inner: TcpLink<'s, H, PlanWay<'s, 'x, A, H>>,
    /// What was received of the answers to the sending at hand.
    heard: Vec<u8>,
}

/// The words for what the answers said, where something was read.
fn reply_words(reply: Reply) -> Option<&'static str> {
    match reply {
        Reply::Nothing => None,
        Reply::NoAcknowledgment => Some("answer that is no acknowledgment"),
        Reply::OfOthers => Some("answer for another control id"),
        Reply::Code(None) => Some("answered with a code that table 0008 has not"),
        Reply::Code(Some(AckCode::AA)) => Some("answered AA"),
        Reply::Code(Some(AckCode::AE)) => Some("answered AE"),
        Reply::Code(Some(AckCode::AR)) => Some("answered AR"),
        Reply::Code(Some(AckCode::CA)) => Some("answered CA"),
        Reply::Code(Some(AckCode::CE)) => Some("answered CE"),
        Reply::Code(Some(AckCode::CR)) => Some("answered CR"),
    }
}

/// Whether a message is neither waiting nor in flight any more.
fn has_ended(state: Option<SlotState>) -> bool {
    matches!(state, Some(SlotState::Delivered | SlotState::Failed(_)))
}

impl<'s, 'x, A: Sharing, H: Crew> NotedLink<'s, 'x, A, H> {
    /// A link to the destination at this index of the plan in force, which is not connected yet.
    pub(crate) fn new(site: &'s Site<'x, A, H>, destination: u32) -> Self
        ensures leads { result.inner.leads_to ≡ destination }
    {
        NotedLink {
            site,
            destination,
            inner: TcpLink::new(site.rt, PlanWay::new(site, destination)).parting(site.alloc),
            heard: Vec::new(site.alloc),
        }
    }

    /// Keeps what was received until the attempt is settled, as far as there is room.
    fn hear(&mut self, bytes: &[u8])
        ensures { self.new.inner ≡ self.old.inner }
    {
        if self.site.answer_text != AnswerText::Nowhere
            && self.heard.len().saturating_add(bytes.len()) <= HEARD_MAX
        {
            // Where memory is refused, the words of the answer aren't shown.
            let _ = self.heard.extend_from_slice(bytes);
        }
    }

    /// Why an attempt failed, in words.
    fn why(&self, reply: Reply) -> Result<Option<String>, AllocError> {
        match reply_words(reply) {
            Some(words) => Ok(Some(String::from_str(self.site.alloc, words)?)),
            None => self.site.fresh_fault(self.destination),
        }
    }

    /// What the destination said in its answer to a message.
    fn words(&self, job: &Job) -> Result<Option<String>, AllocError> {
        let control_id = job.control_id.as_slice();
        let Some(words) = answer_words(self.site.alloc, &self.heard, control_id)? else {
            return Ok(None);
        };
        if words.is_empty() {
            return Ok(None);
        }
        Ok(Some(format!(in self.site.alloc; "{words}")?))
    }

    /// Notes an attempt that is settled, and logs what the destination said where that is wanted.
    fn note_attempt(&self, job: &Job, reply: Reply, outcome: Outcome, state: Option<SlotState>) {
        let now = self.site.seconds();
        let (mut why, mut words) = (None, None);
        if outcome != Outcome::Delivered {
            // Where memory is refused for them, there are none.
            why = self.why(reply).unwrap_or(None);
            words = self.words(job).unwrap_or(None);
            self.log_words(job, &words);
        }
        let delivery = DeliveryNote {
            destination: self.destination,
            attempts: job.ticket.attempt,
            tried: Some(now),
            ended: has_ended(state).then_some(now),
            why,
            words,
        };
        self.site.note_delivery(job.ticket.number, delivery);
    }

    /// Logs what the destination said in its answer to a message, where that is wanted.
    fn log_words(&self, job: &Job, words: &Option<String>) {
        if self.site.answer_text == AnswerText::Log
            && let Some(words) = words
            && let Ok(plan) = self.site.shared.plan(self.site.rt)
            && let Some(destination) = plan.destination(self.destination)
        {
            let (message, attempt) = (job.ticket.number, job.ticket.attempt);
            let control_id = ControlId(job.control_id.as_slice());
            let destination = destination.name();
            warn!(self.site.rt; destination, message, control_id:% = control_id, attempt; "the destination's answer says: {words}");
        }
    }
}

impl<A: Sharing, H: Crew> Link for NotedLink<'_, '_, A, H> {
    ghost fault_count = { λ link. link.inner.faults };

    ghost leads_to = { λ link. link.inner.leads_to };

    fn begin(&mut self) {
        self.heard.clear();
        self.site.forget_fault(self.destination);
        self.inner.begin();
    }

    fn is_open(&mut self) -> bool {
        self.inner.is_open()
    }

    fn is_open_for(&mut self, job: &Job) -> bool {
        self.inner.is_open_for(job)
    }

    fn was_ended(&self) -> bool {
        self.inner.was_ended()
    }

    fn has_interval(&self) -> bool {
        self.inner.has_interval()
    }

    fn settled(&mut self, job: &Job, reply: Reply, outcome: Outcome, state: Option<SlotState>) {
        self.inner.settled(job, reply, outcome, state);
        self.note_attempt(job, reply, outcome, state);
    }

    fn finish(&mut self) {
        self.inner.finish();
    }

    fn connect(&mut self) -> Result<(), LinkFault> {
        self.heard.clear();
        self.inner.connect()
    }

    fn prepare(&mut self) -> Result<(), LinkFault> {
        self.inner.prepare()
    }

    fn send(&mut self, bytes: &[u8]) -> Result<(), LinkFault> {
        self.inner.send(bytes)
    }

    fn receive(&mut self, buffer: &mut [u8]) -> Result<usize, LinkFault> {
        match self.inner.receive(&mut *buffer) {
            Ok(len) => {
                self.hear(&buffer[..len]);
                Ok(len)
            }
            Err(fault) => Err(fault),
        }
    }

    fn faults(&self) -> u64 {
        self.inner.faults()
    }
}
