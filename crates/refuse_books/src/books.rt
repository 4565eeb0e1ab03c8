//! The book of a script, and calls on it.

use anyhow::{Result, bail};
use book_core::{Book, EVENTS_MAX, Outbound};
use call_window::answers::{arrived, cancelled, deployed, fronts, numbers, pruned, taken};
use call_window::book_state::push_book;
use call_window::plans::{judged, plan_named};
use call_window::script::Stage;
use call_window::words::{moment, number, outcome, ticket, word};
use call_window::{Window, done};
use dest_queue::Queued;
use event_log::Log;
use judge_core::Judged;
use plan_text::Plan;
use record_list::RecordList;
use stat_count::Counts;
use std::alloc::{AllocError, Global};
use std::hash::RandomState;
use std::str::SplitWhitespace;
use std::sync::Arc;

/// The number of the connection by which all messages come.
const CONNECTION: u32 = 3;

/// The book that calls are made on.
#[derive(Drop)]
pub struct Books {
    alloc: Global,
    book: Book<RecordList<Queued<Outbound>>>,
}

/// An empty book of a plan.
fn books_of(rt: &HostRuntime, plan: Arc<Plan>, events_max: u32) -> Result<Books> {
    if events_max == 0 || events_max > EVENTS_MAX {
        bail!("no book has {events_max} entries");
    }
    let hasher = RandomState::new(rt)?;
    Ok(Books {
        alloc: rt.alloc(),
        book: Book::new(rt.alloc(), plan, events_max, hasher),
    })
}

/// Makes room for a number of entries in a history.
fn reserved(alloc: Global, window: &Window, log: &mut Log, count: usize) -> Result<String> {
    window.begin()?;
    let made = log.reserve(count);
    window.end()?;
    let told = done(alloc, made)?;
    let (entries, owed) = (log.len(), log.owed());
    Ok(format!(in alloc; "{told}, {entries} entries, {owed} owed")?)
}

/// Makes room for a number of entries in an empty history of the built-in plan.
fn entries(alloc: Global, window: &Window, count: usize) -> Result<String> {
    let plan = Arc::new(alloc, Plan::built_in(alloc)?)?;
    let mut log = Log::new(alloc, plan, EVENTS_MAX);
    reserved(alloc, window, &mut log, count)
}

/// What a history is behind its folding, or that the folding was refused memory.
fn folded(
    alloc: Global,
    window: &Window,
    log: &Log,
    made: Result<(), AllocError>,
) -> Result<String> {
    window.end()?;
    let told = done(alloc, made)?;
    let (prunings, entries) = (log.prunings(), log.len());
    Ok(format!(in alloc; "{told}, {prunings} prunings, {entries} entries")?)
}

/// Folds an empty history of the built-in plan, with room for a number of entries.
#[tactic(auto, unfolding(event_log::specs::Room::total))]
fn folding(alloc: Global, window: &Window, room: usize) -> Result<String> {
    let plan = Arc::new(alloc, Plan::built_in(alloc)?)?;
    let mut log = Log::new(alloc, plan, EVENTS_MAX);
    let (forgotten, remembered) = (Counts::new(), Vec::new(alloc));
    window.begin()?;
    let made = log.fold(room, forgotten, remembered);
    folded(alloc, window, &log, made)
}

impl Books {
    /// An empty book of the built-in plan.
    ///
    /// # Errors
    ///
    /// Where memory is refused.
    pub(crate) fn new(rt: &HostRuntime) -> Result<Books> {
        let plan = Arc::new(rt.alloc(), Plan::built_in(rt.alloc())?)?;
        books_of(rt, plan, EVENTS_MAX)
    }

    /// A new book.
    fn open(&mut self, rt: &HostRuntime, words: &mut SplitWhitespace<'_>) -> Result<String> {
        let plan = plan_named(rt, word(words)?)?;
        *self = books_of(rt, plan, number(words)?)?;
        Ok(String::from_str(self.alloc, "ok")?)
    }

    /// All that the book shows.
    fn state(&mut self) -> Result<String> {
        let mut told = String::new(self.alloc);
        push_book(&mut told, &mut self.book)?;
        Ok(told)
    }

    /// Books what was judged.
    fn arrive_judged(&mut self, window: &Window, judged: &Judged) -> Result<String> {
        if !judged.bookable() {
            bail!("it isn't booked");
        }
        window.begin()?;
        let answer = self.book.arrive(CONNECTION, judged);
        window.end()?;
        Ok(arrived(self.alloc, answer)?)
    }

    /// A text comes.
    fn arrive(&mut self, window: &Window, words: &mut SplitWhitespace<'_>) -> Result<String> {
        let judged = judged(self.alloc, self.book.plan(), word(words)?)?;
        self.arrive_judged(window, &judged)
    }

    /// The front of a queue is taken.
    fn take(&mut self, window: &Window, words: &mut SplitWhitespace<'_>) -> Result<String> {
        let (d, now) = (number(words)?, moment(words)?);
        window.begin()?;
        let answer = self.book.take(d, now);
        window.end()?;
        Ok(taken(self.alloc, answer)?)
    }

    /// An attempt is settled.
    fn settle(&mut self, window: &Window, words: &mut SplitWhitespace<'_>) -> Result<String> {
        let ticket = ticket(words)?;
        let (outcome, now) = (outcome(words)?, moment(words)?);
        window.begin()?;
        let answer = self.book.settle(&ticket, outcome, now);
        window.end()?;
        Ok(format!(in self.alloc; "{answer:?}")?)
    }

    /// A message is cancelled.
    fn cancel(&mut self, window: &Window, words: &mut SplitWhitespace<'_>) -> Result<String> {
        let number = number(words)?;
        window.begin()?;
        let answer = self.book.cancel(number);
        window.end()?;
        Ok(cancelled(self.alloc, answer)?)
    }

    /// A plan is deployed.
    fn deploy(&mut self, window: &Window, plan: Arc<Plan>) -> Result<String> {
        window.begin()?;
        let answer = self.book.deploy(plan);
        window.end()?;
        Ok(deployed(self.alloc, answer)?)
    }

    /// Messages are forgotten.
    fn prune(&mut self, window: &Window, words: &mut SplitWhitespace<'_>) -> Result<String> {
        let before = number(words)?;
        window.begin()?;
        let answer = self.book.prune(before);
        window.end()?;
        Ok(pruned(self.alloc, answer)?)
    }

    /// The messages of a queue.
    fn queued(&self, window: &Window, words: &mut SplitWhitespace<'_>) -> Result<String> {
        let (d, count) = (number(words)?, self.book.message_count());
        window.begin()?;
        let answer = self.book.queued_among(d, 0, count);
        window.end()?;
        Ok(fronts(self.alloc, answer)?)
    }

    /// The messages with a control id.
    fn find(&self, window: &Window, words: &mut SplitWhitespace<'_>) -> Result<String> {
        let (id, count) = (word(words)?, self.book.message_count());
        window.begin()?;
        let answer = self.book.found_among(id.as_bytes(), 0, count);
        window.end()?;
        Ok(numbers(self.alloc, answer)?)
    }

    /// The answer to a call that isn't refused, or leaves the book as it is.
    fn asked(
        &mut self,
        rt: &HostRuntime,
        window: &Window,
        name: &str,
        words: &mut SplitWhitespace<'_>,
    ) -> Result<String> {
        match name {
            "book" => self.open(rt, words),
            "deploy" => {
                let plan = plan_named(rt, word(words)?)?;
                self.deploy(window, plan)
            }
            "state" => self.state(),
            "log" => entries(self.alloc, window, number(words)? as usize),
            "fold" => folding(self.alloc, window, number(words)? as usize),
            "queued" => self.queued(window, words),
            "find" => self.find(window, words),
            _ => bail!("{name} is no call"),
        }
    }
}

impl Stage for Books {
    fn answer(&mut self, rt: &HostRuntime, window: &Window<'_>, call: &str) -> Result<String> {
        let mut words = call.split_whitespace();
        match word(&mut words)? {
            "arrive" => self.arrive(window, &mut words),
            "take" => self.take(window, &mut words),
            "settle" => self.settle(window, &mut words),
            "cancel" => self.cancel(window, &mut words),
            "prune" => self.prune(window, &mut words),
            name => self.asked(rt, window, name, &mut words),
        }
    }
}
