//! The arrivals at the book behind the lock.

ghost use Rattle.std.specs.Prelude.{◌≡◌, ◌≢◌, ◌+◌, ◌↔◌, IfErr, IfOk, OnOk, OnErr, IsErrOf, IsTrue, None, false, true};
ghost use Rattle.judge_core.specs.Judging.{is_bookable};
ghost use Rattle.event_log.specs.Deployment.{deployments};
ghost use Rattle.event_log.specs.History.{next_place, plan_in_force};
ghost use Rattle.event_log.specs.Event.{MemoryIsLast, Does, arrive};
ghost use Rattle.book_core.specs.Receiving.{IsReceipt, arrival_reply};
ghost use Rattle.book_core.specs.inner.Questions.{is_tight};
ghost use Rattle.book_lock.specs.Crowding.{crowded_route};
ghost use Rattle.book_lock.specs.inner.Rises.{with_book};
ghost use Rattle.book_lock.specs.Log.{Arrives, IsTidiedInLog};
ghost use Rattle.book_lock.specs.inner.Arriving.{ArrivesAtBook, ArrivesAtDesk, ArrivesHere};
ghost use Rattle.book_lock.specs.inner.Planning.{WasInForce};
ghost use Rattle.book_lock.specs.inner.Tidies.{ArrivesTidied, IsHeldBack, IsPruning, IsTidying, is_worth_pruning, left_by, unbooked_repeat};

use crate::arrival::book_arrival;
use crate::crowding::{Crowded, crowded_route};
use crate::desks::Desk;
use crate::locked::{Locked, Sharing};
use crate::tidying::{Tidied, Tidying};
use book_core::{Book, BookRows, NotBooked, PruneRefusal, Receipt, three_sums};
use judge_core::Judged;

impl<A: Sharing, S: BookRows> Locked<A, S> {
    /// Books an arrival as the book does, and counts it for the desk.
    ///
    /// # Errors
    ///
    /// The book's, in its order. A refusal leaves the book and the desk as they were.
    pub fn arrive(
        &mut self,
        desk: &mut Desk<A>,
        conn: u32,
        judged: &Judged,
    ) -> Result<Receipt, NotBooked>
        requires { IsTrue (is_bookable judged.now.raw) }
        ensures does { Does (arrive conn judged.now.channel judged.now.raw)
            self.old.book self.new.book (arrival_reply result) }
        ensures memory { MemoryIsLast (arrive conn judged.now.channel judged.now.raw)
            self.old.book (arrival_reply result) }
        ensures book { self.new ≡ with_book self.old self.new.book }
        ensures receipt { IfOk result
            (IsReceipt (next_place self.old.book) conn judged.now.channel judged.now.raw) }
        ensures plan { IsErrOf result NotBooked.PlanChanged
            ↔ judged.now.plan ≢ plan_in_force self.old.book }
        ensures same_plan { IsErrOf result NotBooked.Full
            → judged.now.plan ≡ plan_in_force self.old.book }
        ensures call { Arrives A.opening conn judged.now desk.old.seat desk.new.seat result }
        ensures counted { OnOk result (desk.new.made ≡ desk.old.made + 1) }
        ensures err { OnErr result (desk.new.made ≡ desk.old.made) }
    {
        self.book_arrival(desk, conn, judged, false)
    }

    /// Books an arrival that was judged by the plan that the desk was given, as `arrive` does. That plan is compared with
    /// the one in force only where another plan was deployed since.
    ///
    /// # Errors
    ///
    /// The book's, in its order. A refusal leaves the book and the desk's count as they were.
    pub fn arrive_judged(
        &mut self,
        desk: &mut Desk<A>,
        conn: u32,
        judged: &Judged,
    ) -> Result<Receipt, NotBooked>
        requires bookable { IsTrue (is_bookable judged.now.raw) }
        requires by_plan { WasInForce A.opening
            desk.old.seat.seen desk.old.deployed judged.now.plan }
        ensures booked { ArrivesAtBook conn judged.now self.old self.new result }
        ensures at_desk { ArrivesAtDesk A.opening conn judged.now desk.old desk.new result }
    {
        self.book_arrival(desk, conn, judged, true)
    }

    /// Books an arrival as `arrive` does. `by_desk` says that the message was judged by the plan that the desk was given:
    /// that plan is compared with the one in force only where another plan was deployed since.
    ///
    /// # Errors
    ///
    /// The book's, in its order. A refusal leaves the book and the desk's count as they were.
    fn book_arrival(
        &mut self,
        desk: &mut Desk<A>,
        conn: u32,
        judged: &Judged,
        by_desk: bool,
    ) -> Result<Receipt, NotBooked>
        requires bookable { IsTrue (is_bookable judged.now.raw) }
        requires by_plan { IsTrue by_desk → WasInForce A.opening
            desk.old.seat.seen desk.old.deployed judged.now.plan }
        ensures does { Does (arrive conn judged.now.channel judged.now.raw)
            self.old.book self.new.book (arrival_reply result) }
        ensures memory { MemoryIsLast (arrive conn judged.now.channel judged.now.raw)
            self.old.book (arrival_reply result) }
        ensures book { self.new ≡ with_book self.old self.new.book }
        ensures receipt { IfOk result
            (IsReceipt (next_place self.old.book) conn judged.now.channel judged.now.raw) }
        ensures plan { IsErrOf result NotBooked.PlanChanged
            ↔ judged.now.plan ≢ plan_in_force self.old.book }
        ensures same_plan { IsErrOf result NotBooked.Full
            → judged.now.plan ≡ plan_in_force self.old.book }
        ensures call { ArrivesHere A.opening conn judged.now
            self.old.book desk.old.seat desk.new.seat result }
        ensures counted { OnOk result (desk.new.made ≡ desk.old.made + 1) }
        ensures err { OnErr result (desk.new.made ≡ desk.old.made) }
    {
        three_sums();
        self.book.rules();
        let _channel = judged.channel();
        desk.observe(&mut self.log);
        let is_current = is_current(&self.book, desk, by_desk);
        let booked = book_arrival(&mut self.book, conn, judged, is_current);
        let Ok(receipt) = &booked else {
            return booked;
        };
        desk.add_arrival(&mut self.log, receipt);
        booked
    }

    /// Prunes the book as `prune_settled` does, and once more with `keep` 0 where memory was refused for that.
    fn prune_for_room(&mut self, keep: u32) -> Tidying
        ensures pruning { IsPruning keep self.old result }
        ensures left { self.new ≡ left_by self.old result }
        ensures in_log { IsTidiedInLog A.opening result }
    {
        match self.prune_settled(keep) {
            Ok(before) => Tidying::Pruned { before },
            Err(PruneRefusal::NoMemory) => Tidying::of(self.prune_settled(0)),
            Err(refusal) => Tidying::Refused(refusal),
        }
    }

    /// Prunes a tight book.
    fn tidy(&mut self, keep: u32) -> Tidying
        ensures tidying { IsTidying keep self.old result }
        ensures left { self.new ≡ left_by self.old result }
        ensures in_log { IsTidiedInLog A.opening result }
    {
        if !self.book.is_tight() {
            return Tidying::NotTight;
        }
        self.prune_for_room(keep)
    }

    /// Whether at least a sixty-fourth of the bound is entries, which a pruning would free. The number of prunings is limited,
    /// so none is made for less.
    fn is_worth_pruning(&self) -> bool
        ensures { result ≡ is_worth_pruning self.now.book }
    {
        let held = self.book.held() as u128;
        held > 0 && 64 * held >= u128::from(self.book.events_max())
    }

    /// Whether there was no room for an arrival, and a pruning frees enough to try again.
    fn lacks_room(&self, receipt: &Result<Receipt, NotBooked>) -> bool
        ensures { IsTrue result
            ↔ IsErrOf receipt.now NotBooked.Full × (is_worth_pruning self.now.book ≡ true) }
    {
        is_full(receipt) && self.is_worth_pruning()
    }

    /// The index of the arrival that a message repeats which was refused since the book is full.
    fn repeats(&self, judged: &Judged, receipt: &Result<Receipt, NotBooked>) -> Option<u32>
        requires { IsTrue (is_bookable judged.now.raw) }
        ensures { result ≡ unbooked_repeat self.now.book judged.now receipt.now }
    {
        if is_full(receipt) {
            self.book.repeat_of(judged)
        } else {
            None
        }
    }

    /// Books an arrival at a book that is not tight. Where there is no room for it and a pruning frees enough, the book is
    /// pruned, and it is booked then.
    ///
    /// # Errors
    ///
    /// The receipt's are the book's, in its order. A refusal leaves the desk's count as it was, and the book as the pruning
    /// left it.
    fn arrive_making_room(
        &mut self,
        desk: &mut Desk<A>,
        conn: u32,
        judged: &Judged,
        keep: u32,
        by_desk: bool,
    ) -> Tidied
        requires bookable { IsTrue (is_bookable judged.now.raw) }
        requires by_plan { IsTrue by_desk → WasInForce A.opening
            desk.old.seat.seen desk.old.deployed judged.now.plan }
        requires not_tight { is_tight self.old.book ≡ false }
        requires free { crowded_route self.old.book judged.now.channel ≡ None }
        ensures { ArrivesTidied A.opening keep conn judged.now self.old self.new desk.old desk.new result }
    {
        self.book.rules();
        let first = self.book_arrival(desk, conn, judged, by_desk);
        if !self.lacks_room(&first) {
            return Tidied {
                repeats: self.repeats(judged, &first),
                receipt: first,
                tidying: Tidying::NotTight,
            };
        }
        let tidying = self.prune_for_room(keep);
        let receipt = self.book_arrival(desk, conn, judged, false);
        Tidied {
            repeats: self.repeats(judged, &receipt),
            receipt,
            tidying,
        }
    }

    /// Books an arrival as `book_arrival` does, unless its channel has a route to a crowded destination. A book that is tight is
    /// pruned before that, and one that has no room for the arrival, where that frees enough.
    ///
    /// # Errors
    ///
    /// `Crowded` where the channel has a route to a crowded destination; the desk is as it was.
    fn arrive_unless_crowded(
        &mut self,
        desk: &mut Desk<A>,
        conn: u32,
        judged: &Judged,
        keep: u32,
        by_desk: bool,
    ) -> Result<Tidied, Crowded>
        requires bookable { IsTrue (is_bookable judged.now.raw) }
        requires by_plan { IsTrue by_desk → WasInForce A.opening
            desk.old.seat.seen desk.old.deployed judged.now.plan }
        ensures arrives { IfOk result
            (ArrivesTidied A.opening keep conn judged.now self.old self.new desk.old desk.new) }
        ensures crowded { IfErr result (IsHeldBack A.opening keep judged.now self.old self.new) }
        ensures same_desk { OnErr result (desk.new ≡ desk.old) }
    {
        let tidying = self.tidy(keep);
        if let Some(destination) = crowded_route(&self.book, judged.channel()) {
            return Err(Crowded {
                destination,
                tidying,
            });
        }
        if tidying.is_nothing() {
            return Ok(self.arrive_making_room(desk, conn, judged, keep, by_desk));
        }
        let receipt = self.book_arrival(desk, conn, judged, by_desk);
        Ok(Tidied {
            repeats: self.repeats(judged, &receipt),
            receipt,
            tidying,
        })
    }

    /// Books an arrival as `arrive` does, and counts it for the desk, unless its channel has a route to a crowded destination.
    /// A book that is tight is pruned before that as `prune_settled` does, and so is one that has no room for the arrival, where
    /// at least a sixty-fourth of its bound is entries; where memory is refused for that, once more with `keep` 0. What was done
    /// is returned beside the answer, which is that of `arrive` on the book that this left. Beside `Full` it is returned which
    /// arrival the message repeats, if it does.
    ///
    /// # Errors
    ///
    /// `Crowded` of the first crowded destination that the channel has a route to: nothing is booked, and the desk is as it was.
    /// The receipt's are the book's, in its order. A refusal leaves the desk's count as it was, and the book as the pruning
    /// left it.
    pub fn arrive_tidy(
        &mut self,
        desk: &mut Desk<A>,
        conn: u32,
        judged: &Judged,
        keep: u32,
    ) -> Result<Tidied, Crowded>
        requires { IsTrue (is_bookable judged.now.raw) }
        ensures arrives { IfOk result
            (ArrivesTidied A.opening keep conn judged.now self.old self.new desk.old desk.new) }
        ensures crowded { IfErr result (IsHeldBack A.opening keep judged.now self.old self.new) }
        ensures same_desk { OnErr result (desk.new ≡ desk.old) }
    {
        self.arrive_unless_crowded(desk, conn, judged, keep, false)
    }

    /// Books an arrival that was judged by the plan that the desk was given, as `arrive_judged` does, where `arrive_tidy` would
    /// book it, and after what that does. A pruning keeps the plan in force.
    ///
    /// # Errors
    ///
    /// Those of `arrive_tidy`.
    pub fn arrive_tidy_judged(
        &mut self,
        desk: &mut Desk<A>,
        conn: u32,
        judged: &Judged,
        keep: u32,
    ) -> Result<Tidied, Crowded>
        requires bookable { IsTrue (is_bookable judged.now.raw) }
        requires by_plan { WasInForce A.opening
            desk.old.seat.seen desk.old.deployed judged.now.plan }
        ensures arrives { IfOk result
            (ArrivesTidied A.opening keep conn judged.now self.old self.new desk.old desk.new) }
        ensures crowded { IfErr result (IsHeldBack A.opening keep judged.now self.old self.new) }
        ensures same_desk { OnErr result (desk.new ≡ desk.old) }
    {
        self.arrive_unless_crowded(desk, conn, judged, keep, true)
    }
}

/// Whether an arrival was refused because there is no room for it.
fn is_full(receipt: &Result<Receipt, NotBooked>) -> bool
    ensures { IsTrue result ↔ IsErrOf receipt.now NotBooked.Full }
{
    matches!(receipt, Err(NotBooked::Full))
}

/// Whether a message is known to be judged by the plan in force: `by_desk` says that it was judged by the plan that the desk
/// was given, and none was deployed since.
fn is_current<A: Sharing, S: BookRows>(book: &Book<S>, desk: &Desk<A>, by_desk: bool) -> bool
    ensures { IsTrue result ↔ IsTrue by_desk × (deployments book.now ≡ desk.now.deployed) }
{
    by_desk && desk.deployed() == book.deployments()
}
