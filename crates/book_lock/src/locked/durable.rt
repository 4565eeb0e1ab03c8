//! How much of the book is durable: which entries survive a crash.

ghost use Rattle.std.specs.Prelude.{◌≡◌, false, Ok, Some, IfOk, IfErr, IsTrue, OnErr, OnOk};
ghost use Rattle.event_log.specs.History.{next_place};
ghost use Rattle.book_core.specs.inner.Questions.{front_at};
ghost use Rattle.book_core.specs.declared.questions.Front.{Front};
ghost use Rattle.book_lock.specs.Durable.{AreArrivalsDurable, AreCommitted, ArrivedBelow, IsAllDurable, IsDurableMessage, IsNotTaken, changes_of};
ghost use Rattle.book_lock.specs.Log.{Looks, SeatView, Takes, after_log};
ghost use Rattle.book_lock.specs.inner.Shares.{with_take};

use crate::desks::{Desk, Station};
use crate::durable::{DurableStore, TakeDurableRefusal};
use crate::journal::JournalReader;
use crate::locked::{Locked, Sharing};
use book_core::{Book, BookRows, Entry, Front, Job, Told};
use hl7_head::Moment;
use std::marker::Brand;

impl<A: Sharing, S: BookRows> Locked<A, S> {
    /// Publishes that all entries that the reader has copied are durable. The store holds just these, committed.
    pub fn publish_durable<D: DurableStore>(&mut self, reader: &mut JournalReader<A>, store: &D)
        requires held { D.holds store.now (changes_of reader.old.seat.seen) }
        requires committed { A.committed (changes_of reader.old.seat.seen) }
        ensures reader { reader.new ≡ reader.old }
        ensures same { self.new ≡ self.old }
    {
        let _ = store;
        reader.desk.audit(&mut self.log);
        let below = reader.next;
        self.log.push::<usize, Brand>(&mut self.seat, &below);
        self.durable = below;
    }

    /// Shows the whole log to the desk. The result is the index of the book's next entry: all that the desk has seen is below
    /// it.
    pub fn observe_end(&mut self, desk: &mut Desk<A>) -> usize
        ensures looks { Looks A.opening desk.old.seat desk.new.seat }
        ensures until { result ≡ next_place (after_log A.opening desk.new.seat.seen) }
        ensures made { desk.new.made ≡ desk.old.made }
        ensures deployed { desk.new.deployed ≡ desk.old.deployed }
        ensures same { self.new ≡ self.old }
    {
        desk.observe(&mut self.log);
        self.book.len()
    }

    /// Whether entries below this index are still to become durable.
    pub fn is_pending(&self, until: usize) -> bool {
        self.durable < until && !self.journal_failed
    }

    /// Whether entries below this index are still to become durable. Where they are, it is noted that a thread waits for that.
    pub fn must_wait(&mut self, until: usize) -> bool
        ensures { self.new ≡ self.old }
    {
        let waits = self.is_pending(until);
        self.journal_wanted = self.journal_wanted || waits;
        waits
    }

    /// Whether a thread has begun to wait for entries to become durable since the last call.
    pub fn take_wanted(&mut self) -> bool
        ensures { self.new ≡ self.old }
    {
        let wanted = self.journal_wanted;
        self.journal_wanted = false;
        wanted
    }

    /// Notes that no further entry becomes durable.
    pub fn fail_journal(&mut self)
        ensures { self.new ≡ self.old }
    {
        self.journal_failed = true;
    }

    /// Whether all entries below this index are durable. Where they are, the whole log is shown to the desk.
    pub fn is_durable(&mut self, desk: &mut Desk<A>, until: usize) -> bool
        requires { until ≡ next_place (after_log A.opening desk.old.seat.seen) }
        ensures looks { IsTrue result → Looks A.opening desk.old.seat desk.new.seat }
        ensures durable { IsTrue result → AreArrivalsDurable A.opening desk.new.seat }
        ensures all { IsTrue result → IsAllDurable A.opening desk.old.seat.seen desk.new.seat.seen }
        ensures committed { IsTrue result → AreCommitted A.opening A.committed desk.new.seat.seen }
        ensures waits { result ≡ false → desk.new ≡ desk.old }
        ensures made { desk.new.made ≡ desk.old.made }
        ensures deployed { desk.new.deployed ≡ desk.old.deployed }
        ensures same { self.new ≡ self.old }
    {
        if self.durable < until {
            return false;
        }
        desk.observe(&mut self.log);
        true
    }

    /// Whether the arrival of the first message of queue `d` is durable, if there is one. The whole log is shown to the station.
    fn is_front_durable(&mut self, station: &mut Station<A>, d: u32) -> bool
        ensures durable { IsTrue result → (front : Front) → front_at self.old.book d ≡ Some front →
            IsDurableMessage A.opening self.old.book station.new.seat.seen front.number }
        ensures looks { Looks A.opening station.old.seat station.new.seat }
        ensures counts { station.new.counts ≡ station.old.counts }
        ensures same { self.new ≡ self.old }
    {
        station.observe(&mut self.log);
        let front = self.book.front(d);
        has_arrived_below(&self.book, front, self.durable)
    }

    /// Takes the first message of queue `d` as `take` does, where its arrival is durable.
    ///
    /// # Errors
    ///
    /// `NotDurable` where its arrival is not durable yet, else the refusal of the book. The counts of the station are
    /// unchanged.
    pub fn take_durable(
        &mut self,
        station: &mut Station<A>,
        d: u32,
        now: Moment,
    ) -> Result<Job, TakeDurableRefusal>
        ensures call { IfOk result (λ job. (between : SeatView) × Looks A.opening station.old.seat between
            × Takes A.opening d now between station.new.seat (Ok job)) }
        ensures not_taken { IfErr result
            (IsNotTaken A.opening d now station.old.seat station.new.seat) }
        ensures durable { IfOk result (λ job.
            IsDurableMessage A.opening self.old.book station.new.seat.seen job.ticket.number) }
        ensures counted { OnOk result (station.new.counts ≡ with_take station.old.counts) }
        ensures err { OnErr result (station.new.counts ≡ station.old.counts) }
    {
        if !self.is_front_durable(station, d) {
            self.journal_wanted = true;
            return Err(TakeDurableRefusal::NotDurable);
        }
        match self.take(station, d, now) {
            Ok(job) => Ok(job),
            Err(refusal) => Err(TakeDurableRefusal::Refused(refusal)),
        }
    }
}

/// Whether a message, if there is one, arrived below an index.
fn has_arrived_below<S: BookRows>(book: &Book<S>, front: Option<Front>, below: usize) -> bool
    ensures { IsTrue result → (f : Front) → front ≡ Some f → ArrivedBelow book.now f.number below }
{
    match front {
        Some(front) => message_arrived_below(book, front.number, below),
        None => true,
    }
}

/// Whether message `number` arrived below an index.
fn message_arrived_below<S: BookRows>(book: &Book<S>, number: u32, below: usize) -> bool
    ensures { IsTrue result → ArrivedBelow book.now number below }
{
    let Some(letter) = book.message(number) else {
        return false;
    };
    let place = letter.place();
    match book.entry(place) {
        Some(
            Entry::Arrival {
                told: Told::Accepted(accepted),
                ..
            },
        ) => *accepted == number && place < below,
        Some(_) => false,
        None => place < book.first_place() && place < below,
    }
}
