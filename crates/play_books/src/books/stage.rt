//! The book of a script, and the answers to its calls.

use crate::books::call::Call;
use crate::books::shown::{
    bytes_of, entry_shown, fronts_shown, gauge_shown, job_shown, letter_shown, numbers_shown,
    receipt_shown,
};
use anyhow::{Result, bail};
use book_core::{Book, CancelRefusal, EVENTS_MAX, NotBooked, Outbound, Receipt};
use dest_queue::{Outcome, Queued};
use event_log::{Ticket, Told};
use hl7_head::Moment;
use judge_core::{Judged, fits_block, judge};
use plan_text::Plan;
use record_list::RecordList;
use row_store::RowStore;
use stat_count::{CHANNELS, DESTINATIONS};
use std::alloc::{AllocError, Global};
use std::fmt::Debug;
use std::fs;
use std::hash::RandomState;
use std::sync::Arc;

/// The number of the connection by which all messages come.
const CONNECTION: u32 = 3;

/// The book, and the plan by which messages are judged.
#[derive(Drop)]
pub struct Stage {
    alloc: Global,
    book: Book<RecordList<Queued<Outbound>>>,
    plan: Arc<Plan>,
}

/// A plan by the name of its file, or the built-in one.
fn plan_named(rt: &HostRuntime, name: &str) -> Result<Plan> {
    let alloc = rt.alloc();
    if name == "built-in" {
        return Ok(Plan::built_in(alloc)?);
    }
    Ok(Plan::read(alloc, &fs::read(rt, name)?)?)
}

/// A plan of this name, to be shared.
fn shared_plan(rt: &HostRuntime, name: &str) -> Result<Arc<Plan>> {
    Ok(Arc::new(rt.alloc(), plan_named(rt, name)?)?)
}

/// Why a call was refused.
fn refused<E: Debug>(alloc: Global, refusal: &E, code: u32) -> Result<String> {
    Ok(format!(in alloc; "{refusal:?}, code {code}")?)
}

impl Stage {
    /// An empty book of the plan of this name, which may hold `events_max` entries.
    ///
    /// # Errors
    ///
    /// Where there is no such plan, or memory is refused.
    pub(crate) fn open(rt: &HostRuntime, plan: &str, events_max: u32) -> Result<Stage> {
        if events_max == 0 || events_max > EVENTS_MAX {
            bail!("no book has {events_max} entries");
        }
        let alloc = rt.alloc();
        let hasher = RandomState::new(rt)?;
        let plan = shared_plan(rt, plan)?;
        let book = Book::new(alloc, Arc::try_clone(&plan)?, events_max, hasher);
        Ok(Stage { alloc, book, plan })
    }

    /// Makes the call that a line says, and returns its answer.
    ///
    /// # Errors
    ///
    /// Where the line is no call, or memory is refused.
    pub(crate) fn play(&mut self, rt: &HostRuntime, line: &str) -> Result<String> {
        match Call::read(line) {
            Some(call) => self.answer(rt, call),
            None => bail!("no call: {line}"),
        }
    }

    /// The answer to a call.
    fn answer(&mut self, rt: &HostRuntime, call: Call<'_>) -> Result<String> {
        match call {
            Call::Book { plan, events_max } => self.reopen(rt, plan, events_max),
            Call::Judge { plan } => self.judge_by(rt, plan),
            Call::Arrive { channel, text } => self.arrive(channel, text),
            Call::Many {
                count,
                channel,
                text,
            } => self.many(count, channel, text),
            Call::Take { d, now } => self.take(d, now),
            Call::Settle {
                ticket,
                outcome,
                now,
            } => self.settle(&ticket, outcome, now),
            Call::Cancel { number } => {
                let answer = self.book.cancel(number);
                self.cancelled(answer)
            }
            Call::CancelAmong { number, among } => {
                let answer = self.book.cancel_among(number, among);
                self.cancelled(answer)
            }
            Call::Deploy { plan } => self.deploy(rt, plan),
            Call::Deploys { count, plan } => self.deploys(rt, count, plan),
            Call::Prune { before } => self.prune(before),
            Call::Prunes { count, before } => self.prunes(count, before),
            Call::Drain { d, now } => self.drain(d, now),
            Call::Queue { d } => self.queue(d),
            Call::Status { number, d } => self.status(number, d),
            Call::Channel { channel } => self.channel(channel),
            Call::Destination { d } => self.destination(d),
            Call::Entry { place } => self.entry(place),
            Call::Gauge => Ok(gauge_shown(self.alloc, &self.book)?),
            Call::Live => self.live(),
            Call::Front { d } => self.front(d),
            Call::Settled { keep } => self.settled(keep),
            Call::Message { number } => self.message(number),
            Call::Queued { d, from, to } => self.queued(d, from, to),
            Call::Find { id, from, to } => self.find(id, from, to),
            Call::Entries => self.entries(),
            Call::Promise => self.promise(),
        }
    }

    /// The answer to a call that gives nothing.
    fn done(&self) -> Result<String> {
        Ok(String::from_str(self.alloc, "ok")?)
    }

    /// A new book.
    fn reopen(&mut self, rt: &HostRuntime, plan: &str, events_max: u32) -> Result<String> {
        *self = Stage::open(rt, plan, events_max)?;
        self.done()
    }

    /// Another plan by which messages are judged.
    fn judge_by(&mut self, rt: &HostRuntime, plan: &str) -> Result<String> {
        self.plan = shared_plan(rt, plan)?;
        self.done()
    }

    /// Messages are judged by the plan in force.
    fn judge_by_book(&mut self) -> Result<String> {
        self.plan = Arc::try_clone(self.book.plan())?;
        self.done()
    }

    /// The answer to a cancellation: where the message waited, or why it is none.
    fn cancelled(&self, answer: Result<u32, CancelRefusal>) -> Result<String> {
        match answer {
            Ok(mask) => Ok(format!(in self.alloc; "mask {mask}")?),
            Err(refusal) => refused(self.alloc, &refusal, refusal.code()),
        }
    }

    /// The answer to a deployment; messages are judged by the plan from then on.
    fn deploy(&mut self, rt: &HostRuntime, plan: &str) -> Result<String> {
        match self.book.deploy(shared_plan(rt, plan)?) {
            Ok(()) => self.judge_by_book(),
            Err(refusal) => refused(self.alloc, &refusal, refusal.code()),
        }
    }

    /// How many of a number of deployments of a plan are booked.
    fn deploys(&mut self, rt: &HostRuntime, count: u32, plan: &str) -> Result<String> {
        Ok(self.deploy_again(count, &shared_plan(rt, plan)?)?)
    }

    /// How many of a number of deployments of a shared plan are booked.
    fn deploy_again(&mut self, count: u32, plan: &Arc<Plan>) -> Result<String, AllocError> {
        let mut booked = 0_u32;
        for _ in 0..count {
            if self.book.deploy(Arc::try_clone(plan)?).is_ok() {
                booked = booked.saturating_add(1);
            }
        }
        format!(in self.alloc; "{booked} deployed")
    }

    /// The answer to a pruning.
    fn prune(&mut self, before: u32) -> Result<String> {
        match self.book.prune(before) {
            Ok(()) => self.done(),
            Err(refusal) => refused(self.alloc, &refusal, refusal.code()),
        }
    }

    /// How many of a number of prunings are made.
    fn prunes(&mut self, count: u32, before: u32) -> Result<String> {
        let mut made = 0_u32;
        for _ in 0..count {
            if self.book.prune(before).is_ok() {
                made = made.saturating_add(1);
            }
        }
        Ok(format!(in self.alloc; "{made} pruned")?)
    }

    /// How many messages a queue has.
    fn queue(&self, d: u32) -> Result<String> {
        Ok(format!(in self.alloc; "{}", self.book.queue_len(d))?)
    }

    /// The slot of a message.
    fn status(&self, number: u32, d: u32) -> Result<String> {
        match self.book.status(number, d) {
            Some(state) => Ok(format!(in self.alloc; "{state:?}")?),
            None => Ok(format!(in self.alloc; "no slot")?),
        }
    }

    /// The first message that is still to be delivered, and where.
    fn live(&mut self) -> Result<String> {
        match self.book.first_live() {
            Some(number) => {
                let d = self.book.live_at(number);
                Ok(format!(in self.alloc; "message {number} at {d:?}")?)
            }
            None => Ok(format!(in self.alloc; "none")?),
        }
    }

    /// The front of a queue.
    fn front(&mut self, d: u32) -> Result<String> {
        let front = self.book.front(d);
        Ok(format!(in self.alloc; "{front:?}")?)
    }

    /// The number before which all is settled but for a number of messages.
    fn settled(&mut self, keep: u32) -> Result<String> {
        let before = self.book.settled_before(keep);
        Ok(format!(in self.alloc; "before {before}")?)
    }

    /// What is kept of a message.
    fn message(&self, number: u32) -> Result<String> {
        match self.book.message(number) {
            Some(letter) => {
                let conn = self.book.connection(number);
                Ok(letter_shown(self.alloc, letter, conn)?)
            }
            None => Ok(format!(in self.alloc; "none")?),
        }
    }

    /// A part of a queue.
    fn queued(&self, d: u32, from: u32, to: u32) -> Result<String> {
        let found = self.book.queued_among(d, from, to)?;
        Ok(fronts_shown(self.alloc, &found)?)
    }

    /// The messages with a control id, of some numbers.
    fn find(&self, id: &str, from: u32, to: u32) -> Result<String> {
        let found = self.book.found_among(id.as_bytes(), from, to)?;
        Ok(numbers_shown(self.alloc, &found)?)
    }

    /// How many entries there are.
    fn entries(&self) -> Result<String> {
        Ok(format!(in self.alloc; "{}", self.book.len())?)
    }

    /// What is made of a text that comes on a channel, with a number in it.
    fn judged(&self, channel: u32, text: &str, number: u32) -> Result<Judged> {
        let bytes = bytes_of(self.alloc, text, number)?;
        if channel >= self.plan.channels() || !fits_block(&bytes) {
            bail!("it can't be judged");
        }
        Ok(judge(self.alloc, &self.plan, channel, bytes)?)
    }

    /// Books what was judged, if it may be.
    fn book_judged(&mut self, judged: &Judged) -> Result<Result<Receipt, NotBooked>> {
        if !judged.bookable() {
            bail!("it isn't booked");
        }
        Ok(self.book.arrive(CONNECTION, judged))
    }

    /// Judges a text that comes on a channel, with a number in it, and books it.
    fn booked(
        &mut self,
        channel: u32,
        text: &str,
        number: u32,
    ) -> Result<Result<Receipt, NotBooked>> {
        let judged = self.judged(channel, text, number)?;
        self.book_judged(&judged)
    }

    /// The answer to an arrival: what its receipt says, or why there is none.
    fn arrive(&mut self, channel: u32, text: &str) -> Result<String> {
        match self.booked(channel, text, 0)? {
            Ok(receipt) => Ok(receipt_shown(self.alloc, &receipt)?),
            Err(refusal) => refused(self.alloc, &refusal, refusal.code()),
        }
    }

    /// Whether a text that comes on a channel, with a number in it, is accepted.
    fn accepts(&mut self, channel: u32, text: &str, number: u32) -> Result<bool> {
        match self.booked(channel, text, number)? {
            Ok(receipt) => Ok(matches!(receipt.told, Told::Accepted(_))),
            Err(_) => Ok(false),
        }
    }

    /// How many of a number of arrivals are accepted.
    fn many(&mut self, count: u32, channel: u32, text: &str) -> Result<String> {
        let mut accepted = 0_u32;
        for number in 0..count {
            if self.accepts(channel, text, number)? {
                accepted = accepted.saturating_add(1);
            }
        }
        Ok(format!(in self.alloc; "{accepted} accepted")?)
    }

    /// The answer to a take: the job, or why there is none.
    fn take(&mut self, d: u32, now: Moment) -> Result<String> {
        match self.book.take(d, now) {
            Ok(job) => Ok(job_shown(self.alloc, &job)?),
            Err(refusal) => refused(self.alloc, &refusal, refusal.code()),
        }
    }

    /// The answer to a settlement: the state of the slot, or why there is none.
    fn settle(&mut self, ticket: &Ticket, outcome: Outcome, now: Moment) -> Result<String> {
        match self.book.settle(ticket, outcome, now) {
            Ok(state) => Ok(format!(in self.alloc; "{state:?}")?),
            Err(refusal) => refused(self.alloc, &refusal, refusal.code()),
        }
    }

    /// Takes the front of a queue and delivers it.
    fn deliver(&mut self, d: u32, now: Moment) -> Result<()> {
        let ticket = self.book.take(d, now)?.ticket;
        self.book.settle(&ticket, Outcome::Delivered, now)?;
        Ok(())
    }

    /// How many messages of a queue are taken and delivered, one after another.
    fn drain(&mut self, d: u32, now: Moment) -> Result<String> {
        let waiting = self.book.queue_len(d);
        for _ in 0..waiting {
            self.deliver(d, now)?;
        }
        Ok(format!(in self.alloc; "{waiting} delivered")?)
    }

    /// What a book lends with its promise.
    fn promise(&self) -> Result<String> {
        let (rows, counts) = self.book.promise();
        let here = counts.destination(0);
        Ok(format!(in self.alloc; "{} rows, {} attempts at 0", rows.len(), here.attempts)?)
    }

    /// What was counted of a channel.
    fn channel(&self, channel: u32) -> Result<String> {
        if channel >= CHANNELS {
            bail!("no book counts channel {channel}");
        }
        let counts = self.book.counts().channel(channel);
        Ok(format!(in self.alloc;
            "received {} filtered {} accepted {} refused {} repeats {}",
            counts.received, counts.filtered, counts.accepted, counts.refused, counts.repeats
        )?)
    }

    /// What was counted of a destination.
    fn destination(&self, d: u32) -> Result<String> {
        if d >= DESTINATIONS {
            bail!("no book counts destination {d}");
        }
        let counts = self.book.counts().destination(d);
        Ok(format!(in self.alloc;
            "waiting {} inflight {} delivered {} failed {} attempts {}",
            counts.waiting, counts.inflight, counts.delivered, counts.failed, counts.attempts
        )?)
    }

    /// The entry at a place.
    fn entry(&self, place: u32) -> Result<String> {
        match self.book.entry(place as usize) {
            Some(entry) => Ok(entry_shown(self.alloc, entry)?),
            None => Ok(format!(in self.alloc; "none")?),
        }
    }
}
