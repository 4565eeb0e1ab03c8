//! The shared book of a script, and calls on it.

ghost use Rattle.std.specs.Prelude.{◌<◌};

use crate::devices::{Agreeing, Leaping, Sink, Source};
use crate::shown::{push_message, push_queue, push_status};
use anyhow::{Result, bail};
use book_core::{NotBooked, Outbound, Receipt};
use book_lock::{Desk, Shared, Sharing, Station};
use call_window::Window;
use call_window::answers::{arrived, cancelled, deployed, fronts, numbers, pruned, taken};
use call_window::plans::{judged, plan_named};
use call_window::script::Stage;
use call_window::words::{moment, number, outcome, ticket, word};
use conn_worker::{Counted, ServeReport, Still, nearest, serve};
use delivery_worker::{DeliverReport, deliver};
use dest_queue::Queued;
use judge_core::Judged;
use log::Log;
use plan_text::Plan;
use play_script::{bytes_of, shown};
use record_list::RecordList;
use row_store::QUEUES;
use std::alloc::Global;
use std::str::SplitWhitespace;
use std::sync::{Arc, Wait};
use std::time::Clock;

/// The rows of the book.
pub type Rows = RecordList<Queued<Outbound>>;

/// The number of the connection by which all messages come.
const CONNECTION: u32 = 3;

/// The moment of all replies, and of the first attempt of a delivery, in seconds since 1970.
const MOMENT: u64 = 1_700_000_000;

/// More turns than any delivery of a script takes.
const TURNS: u64 = 12;

/// The shared book that calls are made on, the desk and the station that they are made at, and the
/// receipts of the arrivals.
#[derive(Drop)]
pub struct AtBook<'s, A: Sharing, H> {
    rt: &'s H,
    alloc: Global,
    shared: &'s Shared<A, Rows>,
    desk: &'s mut Desk<A>,
    station: &'s mut Station<A>,
    pub receipts: Vec<Receipt>,
}

/// What became of a connection, and what was written to it.
fn served(alloc: Global, report: &ServeReport, written: &[u8]) -> Result<String> {
    let written = shown(alloc, written)?;
    Ok(format!(in alloc;
        "{:?}, {} booked, {} not booked, {} unreadable: {written}",
        report.end,
        report.receipts.len(),
        report.unbooked,
        report.unreadable
    )?)
}

/// What became of a delivery, and what was sent.
fn delivered(alloc: Global, report: &DeliverReport, sent: &[u8]) -> Result<String> {
    let sent = shown(alloc, sent)?;
    Ok(format!(in alloc;
        "{:?}, taken {}, delivered {}, again {}, rejected {}: {sent}",
        report.end, report.taken, report.delivered, report.again, report.rejected
    )?)
}

impl<'s, A: Sharing, H: Wait + Clock + Log> AtBook<'s, A, H> {
    /// With no call made yet.
    pub fn new(
        rt: &'s H,
        alloc: Global,
        shared: &'s Shared<A, Rows>,
        desk: &'s mut Desk<A>,
        station: &'s mut Station<A>,
    ) -> Self {
        AtBook {
            rt,
            alloc,
            shared,
            desk,
            station,
            receipts: Vec::new(alloc),
        }
    }

    /// Appends the messages, with their states, and the queues.
    fn push_messages(&self, told: &mut String, count: u32) -> Result<()> {
        for number in 0..count {
            push_message(told, number, &self.shared.message(self.rt, number)?)?;
        }
        for d in 0..QUEUES {
            push_queue(told, d, &self.shared.waiting(self.rt, d, 0, count)?)?;
        }
        Ok(())
    }

    /// All that the shared book shows, and what the desk and the station counted.
    fn state(&self) -> Result<String> {
        let mut told = format!(in self.alloc;
            "arrivals {}, takes {}, settlements {}",
            self.desk.made(),
            self.station.taken(),
            self.station.settled()
        )?;
        let (status, plan) = self.shared.status(self.rt)?;
        push_status(&mut told, &status, &plan)?;
        self.push_messages(&mut told, status.gauge.messages)?;
        Ok(told)
    }

    /// Books what was judged.
    fn arrive_judged(
        &mut self,
        window: &Window,
        judged: &Judged,
    ) -> Result<Result<Receipt, NotBooked>> {
        if !judged.bookable() {
            bail!("it isn't booked");
        }
        window.begin()?;
        let answer = self.shared.arrive(self.rt, self.desk, CONNECTION, judged);
        window.end()?;
        Ok(answer)
    }

    /// Keeps the receipt of a message that was booked.
    fn keep(&mut self, receipt: Receipt) -> Result<String> {
        let told = format!(in self.alloc; "entry {}, {:?}", receipt.entry, receipt.told)?;
        self.receipts.push(receipt)?;
        Ok(told)
    }

    /// A text, judged by the plan in force.
    fn judge(&self, name: &str) -> Result<Judged> {
        let plan = self.shared.plan(self.rt)?;
        judged(self.alloc, &plan, name)
    }

    /// Books what was judged, and says what the answer is.
    fn book(&mut self, window: &Window, judged: &Judged) -> Result<String> {
        match self.arrive_judged(window, judged)? {
            Ok(receipt) => self.keep(receipt),
            Err(refusal) => Ok(arrived(self.alloc, Err(refusal))?),
        }
    }

    /// A text arrives.
    fn arrive(&mut self, window: &Window, words: &mut SplitWhitespace<'_>) -> Result<String> {
        let judged = self.judge(word(words)?)?;
        self.book(window, &judged)
    }

    /// The front of a queue is taken.
    fn take(&mut self, window: &Window, words: &mut SplitWhitespace<'_>) -> Result<String> {
        let (d, now) = (number(words)?, moment(words)?);
        window.begin()?;
        let answer = self.shared.take(self.rt, self.station, d, now);
        window.end()?;
        Ok(taken(self.alloc, answer)?)
    }

    /// An attempt is settled.
    fn settle(&mut self, window: &Window, words: &mut SplitWhitespace<'_>) -> Result<String> {
        let ticket = ticket(words)?;
        let (outcome, now) = (outcome(words)?, moment(words)?);
        window.begin()?;
        let answer = self
            .shared
            .settle(self.rt, self.station, &ticket, outcome, now);
        window.end()?;
        Ok(format!(in self.alloc; "{answer:?}")?)
    }

    /// A message is cancelled.
    fn cancel(&mut self, window: &Window, words: &mut SplitWhitespace<'_>) -> Result<String> {
        let number = number(words)?;
        window.begin()?;
        let answer = self.shared.cancel(self.rt, number);
        window.end()?;
        Ok(cancelled(self.alloc, answer)?)
    }

    /// A plan is deployed.
    fn deploy(&mut self, window: &Window, plan: Arc<Plan>) -> Result<String> {
        window.begin()?;
        let answer = self.shared.deploy(self.rt, plan);
        window.end()?;
        Ok(deployed(self.alloc, answer)?)
    }

    /// Messages are forgotten.
    fn prune(&mut self, window: &Window, words: &mut SplitWhitespace<'_>) -> Result<String> {
        let before = number(words)?;
        window.begin()?;
        let answer = self.shared.prune(self.rt, before);
        window.end()?;
        Ok(pruned(self.alloc, answer)?)
    }

    /// The messages of a queue.
    fn queued(&self, window: &Window, words: &mut SplitWhitespace<'_>) -> Result<String> {
        let d = number(words)?;
        window.begin()?;
        let answer = self.shared.waiting(self.rt, d, 0, u32::MAX);
        window.end()?;
        Ok(fronts(self.alloc, answer)?)
    }

    /// The messages with a control id.
    fn find(&self, window: &Window, words: &mut SplitWhitespace<'_>) -> Result<String> {
        let id = word(words)?;
        window.begin()?;
        let answer = self.shared.find(self.rt, id.as_bytes(), 0, u32::MAX);
        window.end()?;
        Ok(numbers(self.alloc, answer)?)
    }

    /// Serves a connection that brings these bytes at the desk, and keeps the receipts.
    fn serve_at(&mut self, window: &Window, bytes: &[u8]) -> Result<String>
        requires { 0 < A.channels }
    {
        let mut reader = Counted::new(Source::new(bytes));
        let mut writer = Counted::new(Sink::new(self.alloc)?);
        let mut clock = Still(nearest(MOMENT));
        window.begin()?;
        let mut report = serve(
            self.rt,
            self.alloc,
            self.shared,
            self.desk,
            CONNECTION,
            0,
            &mut reader,
            &mut writer,
            &mut clock,
        );
        window.end()?;
        let told = served(self.alloc, &report, &writer.into_inner().bytes)?;
        self.receipts.append(&mut report.receipts)?;
        Ok(told)
    }

    /// A connection comes.
    fn serve(&mut self, window: &Window, words: &mut SplitWhitespace<'_>) -> Result<String> {
        let bytes = bytes_of(self.alloc, word(words)?)?;
        if self.shared.plan(self.rt)?.channels() == 0 {
            bail!("there is no channel");
        }
        self.serve_at(window, &bytes)
    }

    /// What waits for a destination is delivered.
    fn deliver(&mut self, window: &Window, words: &mut SplitWhitespace<'_>) -> Result<String> {
        let d = number(words)?;
        let mut link = Agreeing::new(self.alloc, d)?;
        let mut clock = Leaping::new(MOMENT);
        window.begin()?;
        let report = deliver(
            self.rt,
            self.alloc,
            self.shared,
            self.station,
            &mut link,
            d,
            &mut clock,
            TURNS,
        );
        window.end()?;
        delivered(self.alloc, &report, &link.sent)
    }

    /// The answer to a call by a worker, or one that leaves the book as it is.
    fn asked(
        &mut self,
        host: &HostRuntime,
        window: &Window,
        name: &str,
        words: &mut SplitWhitespace<'_>,
    ) -> Result<String> {
        match name {
            "deploy" => {
                let plan = plan_named(host, word(words)?)?;
                self.deploy(window, plan)
            }
            "serve" => self.serve(window, words),
            "deliver" => self.deliver(window, words),
            "state" => self.state(),
            "queued" => self.queued(window, words),
            "find" => self.find(window, words),
            _ => bail!("{name} is no call"),
        }
    }
}

impl<A: Sharing, H: Wait + Clock + Log> Stage for AtBook<'_, A, H> {
    fn answer(&mut self, host: &HostRuntime, window: &Window<'_>, call: &str) -> Result<String> {
        let mut words = call.split_whitespace();
        match word(&mut words)? {
            "arrive" => self.arrive(window, &mut words),
            "take" => self.take(window, &mut words),
            "settle" => self.settle(window, &mut words),
            "cancel" => self.cancel(window, &mut words),
            "prune" => self.prune(window, &mut words),
            name => self.asked(host, window, name, &mut words),
        }
    }
}
