//! The journal of a shared book: copies of its history, and the wait until they are durable.

ghost use Rattle.std.specs.Prelude.{◌≡◌, Ok, IfOk, IfErr, OnErr, OnOk};
ghost use Rattle.book_lock.specs.Durable.{AreArrivalsDurable, AreCommitted, IsAllDurable, IsDurableMessage, IsNotTaken, changes_of};
ghost use Rattle.book_lock.specs.Journal.{Copies};
ghost use Rattle.book_lock.specs.Log.{Looks, SeatView, Takes, IsReadOf};
ghost use Rattle.book_lock.specs.inner.Shares.{with_take};

use crate::copied::Copied;
use crate::desks::{Desk, Station};
use crate::durable::{DurableStore, NotDurable, TakeDurableRefusal};
use crate::journal::{CopyRefusal, JournalReader};
use crate::locked::Sharing;
use crate::shared::Shared;
use book_core::{BookRows, Job};
use hl7_head::Moment;
use std::alloc::Global;
use std::sync::Wait;
use std::time::{Clock, Duration};

impl<A: Sharing, S: BookRows> Shared<A, S> {
    /// Copies of all changes that the reader has not copied, in order. The call holds the lock in proportion to their number.
    /// From the first call on, what a pruning of settled messages folds is kept for the reader, also one before an arrival.
    ///
    /// # Errors
    ///
    /// `Pruned` where entries were folded that are not kept for the reader, and `NoMemory` where memory is refused. The reader
    /// is unchanged.
    pub fn copy_entries<H: Wait>(
        &self,
        rt: &H,
        alloc: Global,
        reader: &mut JournalReader<A>,
    ) -> Result<Vec<Copied>, CopyRefusal>
        ensures copies { IfOk result (λ copies. Copies A.opening reader.old.seat reader.new.seat copies.items) }
        ensures err { OnErr result (reader.new ≡ reader.old) }
        ensures made { reader.new.made ≡ reader.old.made }
    {
        self.locked.lock(rt).copy_entries(alloc, reader)
    }

    /// Publishes that all entries that the reader has copied are durable, and wakes the threads that wait for them. The store
    /// holds just these: their commit returned Ok.
    pub fn publish_durable<H: Wait, D: DurableStore>(
        &self,
        rt: &H,
        reader: &mut JournalReader<A>,
        store: &D,
    )
        requires held { D.holds store.now (changes_of reader.old.seat.seen) }
        requires committed { A.committed (changes_of reader.old.seat.seen) }
        ensures { reader.new ≡ reader.old }
    {
        self.locked.lock(rt).publish_durable(reader, store);
        self.became_durable.notify_all();
    }

    /// Notes that no further entry becomes durable, and wakes the threads that wait for one.
    pub fn fail_journal<H: Wait>(&self, rt: &H) {
        self.locked.lock(rt).fail_journal();
        self.became_durable.notify_all();
    }

    /// Waits until all that was booked at the desk is durable, and all that its seat has seen. Entries that others booked before
    /// the call are waited for too.
    ///
    /// # Errors
    ///
    /// `NotDurable` where the journal has failed before that.
    #[tactic(auto, using(crate::proofs::Durability::looked_twice))]
    pub fn wait_durable<H: Wait>(&self, rt: &H, desk: &mut Desk<A>) -> Result<(), NotDurable>
        ensures durable { OnOk result (AreArrivalsDurable A.opening desk.new.seat) }
        ensures all { OnOk result (IsAllDurable A.opening desk.old.seat.seen desk.new.seat.seen) }
        ensures committed { OnOk result (AreCommitted A.opening A.committed desk.new.seat.seen) }
        ensures looks { Looks A.opening desk.old.seat desk.new.seat }
        ensures made { desk.new.made ≡ desk.old.made }
        ensures deployed { desk.new.deployed ≡ desk.old.deployed }
    {
        let mut locked = self.locked.lock(rt);
        let until = locked.observe_end(desk);
        if locked.must_wait(until) {
            self.journal_bell.notify_all();
        }
        let mut locked = self
            .became_durable
            .wait_while(rt, locked, |locked| locked.is_pending(until));
        if locked.is_durable(desk, until) {
            Ok(())
        } else {
            Err(NotDurable)
        }
    }

    /// Takes the first message of queue `d` to be sent, as `take` does, where its arrival is durable.
    ///
    /// # Errors
    ///
    /// `NotDurable` where its arrival is not durable yet, else the refusal of the book. The counts of the station are
    /// unchanged.
    pub fn take_durable<H: Wait>(
        &self,
        rt: &H,
        station: &mut Station<A>,
        d: u32,
        now: Moment,
    ) -> Result<Job, TakeDurableRefusal>
        ensures call { IfOk result (λ job. (between : SeatView) × Looks A.opening station.old.seat between
            × Takes A.opening d now between station.new.seat (Ok job)) }
        ensures not_taken { IfErr result
            (IsNotTaken A.opening d now station.old.seat station.new.seat) }
        ensures durable { IfOk result (λ job. IsReadOf A.opening
            (λ book. IsDurableMessage A.opening book station.new.seat.seen job.ticket.number)) }
        ensures counted { OnOk result (station.new.counts ≡ with_take station.old.counts) }
        ensures refused { OnErr result (station.new.counts ≡ station.old.counts) }
    {
        let mut locked = self.locked.lock(rt);
        locked.book_is_logged();
        let taken = locked.take_durable(station, d, now);
        if taken.is_err() {
            self.journal_bell.notify_all();
        }
        taken
    }

    /// Waits until a thread waits for entries to become durable, or for this time at most. It returns at once where one has
    /// begun to wait since the last call.
    pub fn wait_wanted<H: Wait + Clock>(&self, rt: &H, most: Duration) {
        let mut locked = self.locked.lock(rt);
        if !locked.take_wanted() {
            let (mut woken, _) = self.journal_bell.wait_timeout(rt, locked, most);
            let _wanted = woken.take_wanted();
        }
    }
}
