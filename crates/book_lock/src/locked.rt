//! The value behind the lock.

ghost use Rattle.std.specs.Prelude.{◌≡◌, ◌+◌, ◌-◌, ◌^◌, ◌<◌, ◌≤◌, ◌⊎◌, ◌↔◌, ℕ, [], Ok, IfOk, IfErr, IfSome, OnOk, OnErr, OnSome, IsNone, IsTrue, None, Some, false, if◌then◌else◌, nat_lt, length, slice_get};
ghost use Rattle.std.specs.Arc.{arc_value};
ghost use Rattle.stat_count.specs.Sums.{arrivals};
ghost use Rattle.event_log.specs.History.{control_id, message_count, next_place, payload, plan_in_force};
ghost use Rattle.event_log.specs.Event.{MemoryIsLast, Does, cancel, deploy, result_map, settle, take};
ghost use Rattle.event_log.specs.Folding.{is_live_message, prune_answer, pruned};
ghost use Rattle.event_log.specs.Counting.{counted};
ghost use Rattle.book_core.specs.Headline.{KeepsItsPromise};
ghost use Rattle.book_core.specs.inner.Questions.{first_live, front_at, settled_before};
ghost use Rattle.book_core.specs.Sending.{awaits_ack};
ghost use Rattle.book_lock.specs.Rises.{AddsUp, arrivals_rise, settlements_rise, takes_rise};
ghost use Rattle.book_lock.specs.inner.Rises.{with_book};
ghost use Rattle.book_lock.specs.Log.{Calls, Linearizes, Looks, Takes, IsCalled, IsPruneRefused, IsPruned, IsLogged};
ghost use Rattle.book_lock.specs.Callers.{IsClosedBy};
ghost use Rattle.book_lock.specs.Durable.{HasCommitted};
ghost use Rattle.book_lock.specs.inner.Planning.{WasInForce};
ghost use Rattle.book_lock.specs.inner.Shares.{with_settlement, with_take};
ghost use Rattle.book_lock.specs.Shares.{seats_of};
ghost use Rattle.book_lock.specs.inner.Showing.{IsGauge, IsStatus};
ghost use Rattle.book_lock.specs.inner.Tidies.{IsSettledRefusal};

mod arrivals;
mod copying;
mod durable;

use crate::desks::{
    Desk, Station, compare_desks, compare_stations, hand_in_desks, hand_in_stations, made_by,
    settled_at, taken_at,
};
use crate::log_entry::LogEntry;
use crate::status::{Gauge, Status};
use crate::sums::{arrivals, settlements, takes};
use crate::unread::{Position, UnreadChanges, with_pruning};
use book_core::{
    Book, BookRows, CancelRefusal, DeployRefusal, Front, Job, PruneRefusal, TakeRefusal, Ticket,
    three_sums,
};
use dest_queue::{Outcome, SettleRefusal, SlotState};
use ghost_log::{GhostLog, Naming, Roll, Seat};
use hl7_head::Moment;
use plan_text::Plan;
use row_store::QUEUES;
use stat_count::Counts;
use std::alloc::AllocError;
use std::marker::{Brand, Model};
use std::sync::Arc;

/// How a book is shared: the log of all that is done to it, what it had at that moment, and how many desks and stations it
/// is shared among.
pub trait Sharing: Naming {
    ghost use Rattle.std.specs.Prelude.{ℕ, List};
    ghost use Rattle.stat_count.specs.Statistics.{Statistics};
    ghost use Rattle.event_log.specs.History.{History};
    ghost use Rattle.book_lock.specs.declared.log_entry.LogEntry.{LogEntry};

    /// Its history.
    ghost opening: { History };

    /// Its statistics.
    ghost counts: { Statistics };

    /// The index of its next entry.
    ghost first: { ℕ };

    /// The number of its channels, which never changes.
    ghost channels: { ℕ };

    /// The number of its desks. Their seats have the numbers from 0 on.
    ghost desks: { ℕ };

    /// The number of its stations. Their seats have the numbers after those of the desks.
    ghost stations: { ℕ };

    /// The changes since the book was shared, in order, that were committed to a store. Nothing is published as durable
    /// without such a commit; where there is no journal this holds of no list.
    ghost committed: { List LogEntry → Type 0 };
}

impl Sharing for Brand {
    ghost use Rattle.std.specs.Prelude.{[]};
    ghost use Rattle.stat_count.specs.inner.Statistics.{empty};
    ghost use Rattle.event_log.specs.inner.History.{snapshot_after};

    ghost opening = { snapshot_after (record { destinations = []; channels = [] }) 0 };

    ghost counts = { empty };

    ghost first = { 0 };

    ghost channels = { 0 };

    ghost desks = { 0 };

    ghost stations = { 0 };

    ghost committed = { λ _. ⊥ };
}

/// The book, with the log of all that was done to it since it was shared. What is done to it for no desk or station is
/// logged by the seat that is kept here.
#[derive(Drop)]
pub struct Locked<A: Sharing, S: BookRows> {
    book: Book<S>,
    opening: Counts,
    first: usize,
    admitted: u32,
    log: GhostLog<A, LogEntry>,
    seat: Seat<A, LogEntry>,
    rung: u32,
    /// All entries below this index are durable: they survive a crash.
    durable: usize,
    /// Whether no further entry becomes durable.
    journal_failed: bool,
    /// Whether a thread has begun to wait for entries to become durable since the journal last copied.
    journal_wanted: bool,
    /// Copies of changes for the reader of a journal, once it has copied: what a pruning folds is kept here.
    unread: Option<UnreadChanges>,
}

impl<A: Sharing, S: BookRows> Model for Locked<A, S> {
    ghost use Rattle.std.specs.Prelude.{◌≡◌, ◌+◌};
    ghost use Rattle.book_lock.specs.Log.{IsBookOf};
    ghost use Rattle.book_lock.specs.Rises.{SharedBook};
    ghost use Rattle.book_lock.specs.inner.Rises.{IsCountedIn, IsOpened, shared};
    ghost use Rattle.book_lock.specs.inner.Sound.{IsSoundBook};
    ghost use Rattle.book_lock.specs.inner.Counts.{IsManned};
    ghost use Rattle.book_lock.specs.inner.Durable.{IsJournaled};
    ghost use Rattle.book_lock.specs.inner.Coding.{held_code};

    ghost Value = { SharedBook };

    ghost coded = { held_code };

    ghost view = { λ l. record { book = l.book; opening = l.opening; first = l.first; admitted = l.admitted } };

    ghost invariant = { λ l.
        IsOpened (shared l.book l.opening l.first l.admitted) A.counts A.first A.channels
        × IsCountedIn (shared l.book l.opening l.first l.admitted) l.log.0
        × IsBookOf A.opening l.log.0 l.book
        × (l.log.1 ≡ A.desks + A.stations + 1)
        × IsSoundBook A.opening
        × IsManned A.desks A.stations l.log.0
        × IsJournaled A.opening A.committed l.log.0 l.durable l.unread };
}

/// A book out of its lock.
#[derive(Drop)]
pub struct Closed<S: BookRows> {
    book: Book<S>,
    opening: Counts,
    first: usize,
    admitted: u32,
}

impl<S: BookRows> Model for Closed<S> {
    ghost use Rattle.std.specs.Prelude.{◌≤◌};
    ghost use Rattle.event_log.specs.History.{next_place};
    ghost use Rattle.book_lock.specs.Rises.{SharedBook};
    ghost use Rattle.book_lock.specs.inner.Coding.{held_code};

    ghost Value = { SharedBook };

    ghost coded = { held_code };

    ghost view = { λ c. record { book = c.book; opening = c.opening; first = c.first; admitted = c.admitted } };

    ghost invariant = { λ c. c.first ≤ next_place c.book };
}

impl<S: BookRows> Closed<S> {
    /// The book.
    pub fn book(&self) -> &Book<S>
        ensures { result.now ≡ self.now.book }
    {
        &self.book
    }

    /// The statistics that the book had when it was shared.
    pub fn opening(&self) -> &Counts
        ensures { result.now ≡ self.now.opening }
    {
        &self.opening
    }

    /// The index of the book's next entry when it was shared: that of the first entry since.
    pub fn first(&self) -> usize
        ensures first { result ≡ self.now.first }
        ensures within { result ≤ next_place self.now.book }
    {
        self.first
    }

    /// How many connections were admitted since the book was shared.
    pub fn admitted(&self) -> u32
        ensures { result ≡ self.now.admitted }
    {
        self.admitted
    }

    /// The rows and the statistics of the book, which keeps its promise.
    pub fn promise(&self) -> (&S, &Counts)
        ensures { KeepsItsPromise self.now.book (S.rows result.0.now) result.1.now }
    {
        self.book.promise()
    }
}

impl<A: Sharing, S: BookRows> Locked<A, S> {
    /// Begins to log for a book. The log is empty, and its last seat is the one kept here.
    pub fn new(book: Book<S>, mut log: GhostLog<A, LogEntry>) -> Locked<A, S>
        requires opening { book ≡ A.opening }
        requires log { (log.0 ≡ []) × (log.1 ≡ A.desks + A.stations) × (log.1 + 1 < 2 ^ 64) }
        requires counts { counted book ≡ A.counts }
        requires first { next_place book ≡ A.first }
        requires channels { length (plan_in_force book).channels ≡ A.channels }
        ensures { result ≡ record { book = book; opening = counted book; first = next_place book; admitted = 0 } }
    {
        book.rules();
        let opening = *book.counts();
        let first = book.len();
        let seat = log.issue();
        Locked {
            book,
            opening,
            first,
            admitted: 0,
            log,
            seat,
            rung: 0,
            durable: first,
            journal_failed: false,
            journal_wanted: false,
            unread: None,
        }
    }

    /// The book.
    pub fn book(&self) -> &Book<S>
        ensures { result.now ≡ self.now.book }
    {
        &self.book
    }

    /// The law that the book is what the log makes of the opening.
    pub fn book_is_logged(&self)
        ensures { IsLogged A.opening self.now.book }
    {
        let _log = &self.log;
    }

    /// The rows and the statistics of the book, which keeps its promise whenever the lock is free.
    pub fn promise(&self) -> (&S, &Counts)
        ensures { KeepsItsPromise self.now.book (S.rows result.0.now) result.1.now }
    {
        self.book.promise()
    }

    /// The plan in force.
    pub fn plan(&self) -> &Arc<Plan>
        ensures plan { arc_value result.now ≡ plan_in_force self.now.book }
        ensures channels { length (arc_value result.now).channels ≡ A.channels }
    {
        self.book.plan()
    }

    /// The plan in force, by which messages are judged at the desk from now on.
    ///
    /// # Errors
    ///
    /// Where the plan has more owners than can be counted.
    pub fn plan_at(&mut self, desk: &mut Desk<A>) -> Result<Arc<Plan>, AllocError>
        ensures plan { IfOk result (λ plan. arc_value plan ≡ plan_in_force self.old.book) }
        ensures channels { IfOk result (λ plan. length (arc_value plan).channels ≡ A.channels) }
        ensures looks { Looks A.opening desk.old.seat desk.new.seat }
        ensures in_force { IfOk result (λ plan. WasInForce A.opening
            desk.new.seat.seen desk.new.deployed (arc_value plan)) }
        ensures made { desk.new.made ≡ desk.old.made }
        ensures same { self.new ≡ self.old }
    {
        desk.observe(&mut self.log);
        desk.remember(self.book.deployments());
        Ok(Arc::try_clone(self.book.plan())?)
    }

    /// The statistics. They show at least as many arrivals as the desk made since the book was shared.
    pub fn counts(&mut self, desk: &mut Desk<A>) -> Counts
        ensures counts { result ≡ counted self.old.book }
        ensures shown { arrivals A.counts + desk.old.made ≤ arrivals result }
        ensures same { (self.new ≡ self.old) × (desk.new ≡ desk.old) }
    {
        desk.audit(&mut self.log);
        *self.book.counts()
    }

    /// Takes the front of queue `d` as the book does, and counts it for the station.
    ///
    /// # Errors
    ///
    /// The book's, in its order. A refusal leaves the book and the station as they were.
    pub fn take(
        &mut self,
        station: &mut Station<A>,
        d: u32,
        now: Moment,
    ) -> Result<Job, TakeRefusal>
        ensures does { Does (take d now) self.old.book self.new.book (result_map (λ job. job.ticket) result) }
        ensures memory { MemoryIsLast (take d now) self.old.book (result_map (λ job. job.ticket) result) }
        ensures book { self.new ≡ with_book self.old self.new.book }
        ensures control_id { IfOk result (λ job. job.control_id ≡ control_id self.old.book job.ticket.number) }
        ensures payload { IfOk result (λ job. job.payload ≡ payload self.old.book job.ticket.number d) }
        ensures ack { IfOk result (λ job. job.ack ≡ awaits_ack (plan_in_force self.old.book) d) }
        ensures call { Takes A.opening d now station.old.seat station.new.seat result }
        ensures counted { OnOk result (station.new.counts ≡ with_take station.old.counts) }
        ensures err { OnErr result (station.new.counts ≡ station.old.counts) }
    {
        three_sums();
        self.book.rules();
        station.observe(&mut self.log);
        let taken = self.book.take(d, now);
        let Ok(job) = &taken else {
            return taken;
        };
        station.add_take(&mut self.log, &job.ticket, now);
        taken
    }

    /// Settles an attempt as the book does, and counts it for the station.
    ///
    /// # Errors
    ///
    /// The book's, in its order. A refusal leaves the book and the station as they were.
    pub fn settle(
        &mut self,
        station: &mut Station<A>,
        ticket: &Ticket,
        outcome: Outcome,
        now: Moment,
    ) -> Result<SlotState, SettleRefusal>
        ensures does { Does (settle ticket.now outcome now) self.old.book self.new.book result }
        ensures book { self.new ≡ with_book self.old self.new.book }
        ensures call { Calls A.opening (settle ticket.now outcome now)
            station.old.seat station.new.seat result }
        ensures counted { OnOk result (station.new.counts ≡ with_settlement station.old.counts) }
        ensures err { OnErr result (station.new.counts ≡ station.old.counts) }
    {
        three_sums();
        self.book.rules();
        station.observe(&mut self.log);
        let settled = self.book.settle(ticket, outcome, now);
        let Ok(state) = &settled else {
            return settled;
        };
        let made = (outcome, *ticket, now, *state);
        station.add_settlement(&mut self.log, &made);
        settled
    }

    /// Cancels a message wherever it waits, as the book does: no share rises.
    ///
    /// # Errors
    ///
    /// The book's, in its order. A refusal leaves the book as it was.
    pub fn cancel(&mut self, number: u32) -> Result<u32, CancelRefusal>
        ensures does { Does (cancel number 4294967295) self.old.book self.new.book result }
        ensures memory { MemoryIsLast (cancel number 4294967295) self.old.book result }
        ensures book { self.new ≡ with_book self.old self.new.book }
        ensures call { IsCalled A.opening (cancel number 4294967295) result }
    {
        self.cancel_among(number, u32::MAX)
    }

    /// Cancels a message where it waits at one of the destinations of a mask, as the book does: no share rises.
    ///
    /// # Errors
    ///
    /// The book's, in its order. A refusal leaves the book as it was.
    pub fn cancel_among(&mut self, number: u32, among: u32) -> Result<u32, CancelRefusal>
        ensures does { Does (cancel number among) self.old.book self.new.book result }
        ensures memory { MemoryIsLast (cancel number among) self.old.book result }
        ensures book { self.new ≡ with_book self.old self.new.book }
        ensures call { IsCalled A.opening (cancel number among) result }
    {
        three_sums();
        self.book.rules();
        self.log.observe(&mut self.seat);
        let mask = self.book.cancel_among(number, among)?;
        self.log
            .push::<(u32, u32, u32), Brand>(&mut self.seat, &(number, among, mask));
        Ok(mask)
    }

    /// Puts another plan in force, as the book does: no share rises, and there are as many channels as before.
    ///
    /// # Errors
    ///
    /// The book's, in its order. A refusal leaves the book as it was, and drops the plan.
    pub fn deploy(&mut self, plan: Arc<Plan>) -> Result<(), DeployRefusal>
        ensures does { Does (deploy (arc_value plan)) self.old.book self.new.book result }
        ensures memory { MemoryIsLast (deploy (arc_value plan)) self.old.book result }
        ensures book { self.new ≡ with_book self.old self.new.book }
        ensures call { IsCalled A.opening (deploy (arc_value plan)) result }
        ensures channels { OnOk result (length (arc_value plan).channels ≡ A.channels) }
    {
        three_sums();
        self.book.rules();
        self.log.observe(&mut self.seat);
        self.book.deploy(plan)?;
        self.log
            .push::<Arc<Plan>, Brand>(&mut self.seat, self.book.plan());
        Ok(())
    }

    /// Forgets messages and folds all entries, as the book does: no share rises, and the statistics keep what is forgotten.
    /// The reader of a journal that has not copied all before is refused from then on.
    ///
    /// # Errors
    ///
    /// The book's, in its order. A refusal leaves the book as it was.
    pub fn prune(&mut self, before: u32) -> Result<(), PruneRefusal>
        ensures answer { OnOk result (prune_answer self.old.book before ≡ None) }
        ensures folded { OnOk result (self.new ≡ with_book self.old (pruned before self.old.book)) }
        ensures refused { IfErr result (λ e.
            (prune_answer self.old.book before ≡ Some e)
            ⊎ (prune_answer self.old.book before ≡ None) × (e ≡ PruneRefusal.NoMemory)) }
        ensures call { IsPruned A.opening before result }
        ensures err { OnErr result (self.new ≡ self.old) }
    {
        self.book.rules();
        let at = Position {
            next: self.book.len(),
            prunings: self.book.prunings(),
        };
        self.book.prune(before)?;
        self.log.push::<u32, Brand>(&mut self.seat, &before);
        let kept = self.unread.take();
        self.unread = with_pruning(kept, at, before, self.book.prunings());
        Ok(())
    }

    /// The number before which `prune` forgets all that is settled but for the last `keep` messages.
    fn settled_before(&mut self, keep: u32) -> u32
        ensures before { result ≡ settled_before keep self.old.book }
        ensures kept { result ≤ message_count self.old.book - keep }
        ensures settled { (n : ℕ) → n < result → is_live_message self.old.book n ≡ false }
        ensures answer { prune_answer self.old.book result ≡ (if nat_lt self.old.book.opening.prunings 1000 then None else Some PruneRefusal.TooMany) }
        ensures same { self.new ≡ self.old }
    {
        self.book.settled_before(keep)
    }

    /// Forgets the messages that are settled at each of their destinations, but for the last `keep` messages and for all
    /// from the first on that is still to be delivered, and folds all entries. It returns the number before which all is
    /// forgotten.
    ///
    /// # Errors
    ///
    /// `TooMany` where `PRUNINGS_MAX` prunings were made, and then `NoMemory` where a growth was refused, or the copies for a
    /// journal of what it has not copied. A refusal leaves the book as it was.
    pub fn prune_settled(&mut self, keep: u32) -> Result<u32, PruneRefusal>
        ensures before { IfOk result (λ before. before ≡ settled_before keep self.old.book) }
        ensures folded { IfOk result (λ before. self.new ≡ with_book self.old (pruned before self.old.book)) }
        ensures kept { IfOk result (λ before. before ≤ message_count self.old.book - keep) }
        ensures settled { IfOk result (λ before. (n : ℕ) → n < before → is_live_message self.old.book n ≡ false) }
        ensures allowed { IfOk result (λ before. prune_answer self.old.book before ≡ None) }
        ensures left { OnOk result (self.old.book.opening.prunings < 1000) }
        ensures refused { IfErr result (IsSettledRefusal self.old) }
        ensures call { IfOk result (λ before. IsPruned A.opening before (Ok tt)) }
        ensures refused_call { IfErr result (IsPruneRefused A.opening) }
        ensures err { OnErr result (self.new ≡ self.old) }
    {
        let before = self.settled_before(keep);
        self.prune_keeping(before)?;
        Ok(before)
    }

    /// The number of the next connection, counted from 0; no number is given twice. None once 4,294,967,295 numbers were
    /// given, and nothing changes then.
    pub fn admit(&mut self) -> Option<u32>
        ensures number { IfSome result (λ number. number ≡ self.old.admitted) }
        ensures next { OnSome result (self.new ≡ record self.old { admitted = self.old.admitted + 1 }) }
        ensures last { IsNone result ↔ (self.old.admitted ≡ u32.MAX) }
        ensures none { IsNone result → self.new ≡ self.old }
    {
        let number = self.admitted;
        self.admitted = number.checked_add(1)?;
        Some(number)
    }

    /// How full the book is.
    pub fn gauge(&self) -> Gauge
        ensures { IsGauge self.now result }
    {
        Gauge {
            held: self.book.held(),
            owed: self.book.owed(),
            events_max: self.book.events_max(),
            messages: self.book.message_count(),
            first: self.book.first_remembered(),
            prunings: self.book.prunings(),
            deployments: self.book.deployments(),
            admitted: self.admitted,
        }
    }

    /// The front of each queue with its state there.
    #[tactic(auto, using(crate::proofs::Filling::filled_more, crate::proofs::Filling::none_filled))]
    fn fronts(&mut self) -> [Option<Front>; QUEUES as usize]
        ensures fronts { (d : ℕ) → d < 32 → slice_get result d ≡ Some (front_at self.old.book d) }
        ensures same { self.new ≡ self.old }
    {
        let mut fronts = [None; QUEUES as usize];
        for d in 0..QUEUES {
            fronts[d as usize] = self.front(d);
        }
        fronts
    }

    /// How full the book is, its statistics, the front of each queue and the first message that is still to be delivered.
    pub fn status(&mut self) -> Status
        ensures status { IsStatus self.old result }
        ensures same { self.new ≡ self.old }
    {
        let gauge = self.gauge();
        let counts = *self.book.counts();
        let fronts = self.fronts();
        let first_live = self.first_live();
        Status {
            gauge,
            counts,
            fronts,
            first_live,
        }
    }

    /// The message at the front of queue `d` with its state there, if there is one.
    pub fn front(&mut self, d: u32) -> Option<Front>
        ensures front { result ≡ front_at self.old.book d }
        ensures same { self.new ≡ self.old }
    {
        self.book.front(d)
    }

    /// The first message that is still to be delivered to a destination, if there is one.
    pub fn first_live(&mut self) -> Option<u32>
        ensures first { result ≡ first_live self.old.book }
        ensures same { self.new ≡ self.old }
    {
        self.book.first_live()
    }

    /// Notes a change at the destinations of a mask, and answers those at which none was noted.
    pub fn mark_changed(&mut self, mask: u32) -> u32
        ensures { self.new ≡ self.old }
    {
        let changed = self.rung;
        self.rung = changed | mask;
        mask & !changed
    }

    /// Whether a change was noted at destination `d` since the last call of this.
    pub fn take_change(&mut self, d: u32) -> bool
        requires { d < 32 }
        ensures { self.new ≡ self.old }
    {
        let changed = self.rung;
        let here = 1 << d;
        self.rung = changed & !here;
        changed & here != 0
    }

    /// The arrivals since the book was shared, by its statistics.
    fn came(&self) -> u128
        ensures { result ≡ arrivals_rise self.now }
    {
        arrivals(self.book.counts()) - arrivals(&self.opening)
    }

    /// The takes since the book was shared, by its statistics.
    fn begun(&self) -> u128
        ensures { result ≡ takes_rise self.now }
    {
        takes(self.book.counts()) - takes(&self.opening)
    }

    /// The settlements since the book was shared, by its statistics.
    fn ended(&self) -> u128
        ensures { result ≡ settlements_rise self.now }
    {
        settlements(self.book.counts()) - settlements(&self.opening)
    }

    /// The same book. The seats of these desks and stations are compared with its log: where as many are here as the book
    /// was shared among, what they counted adds up.
    pub fn compared(self, desks: &mut Vec<Desk<A>>, stations: &mut Vec<Station<A>>) -> Locked<A, S>
        ensures same { result ≡ self }
        ensures desks { desks.new.items ≡ desks.old.items }
        ensures stations { stations.new.items ≡ stations.old.items }
        ensures whole { (length desks.old.items ≡ A.desks) × (length stations.old.items ≡ A.stations) →
            AddsUp self desks.old.items stations.old.items }
    {
        let Locked {
            book,
            opening,
            first,
            admitted,
            log,
            seat,
            rung,
            durable,
            journal_failed,
            journal_wanted,
            unread,
        } = self;
        let mut roll = Roll::of(log);
        compare_desks(&mut roll, desks);
        compare_stations(&mut roll, stations);
        Locked {
            book,
            opening,
            first,
            admitted,
            log: roll.into_log(),
            seat,
            rung,
            durable,
            journal_failed,
            journal_wanted,
            unread,
        }
    }

    /// The book out of its lock. The seats of these desks and stations are handed in: the log is one history of all that
    /// they and others did. Where their shares add up, all its arrivals, takes and settlements were made at them, and it
    /// accounts for the slots of the book.
    pub fn close(self, desks: Vec<Desk<A>>, stations: Vec<Station<A>>) -> Closed<S>
        ensures same { result ≡ self }
        ensures opening { (result.opening ≡ A.counts) × (result.first ≡ A.first) }
        ensures one_history { Linearizes A.opening (A.desks + A.stations + 1)
            (seats_of desks.items stations.items) result.book }
        ensures committed { HasCommitted A.opening A.committed (A.desks + A.stations + 1)
            (seats_of desks.items stations.items) result.book }
        ensures closed { AddsUp self desks.items stations.items →
            IsClosedBy A.opening (A.desks + A.stations + 1) desks.items stations.items result.book }
    {
        let Locked {
            book,
            opening,
            first,
            admitted,
            log,
            ..
        } = self;
        let mut roll = Roll::of(log);
        hand_in_stations(&mut roll, stations);
        hand_in_desks(&mut roll, desks);
        roll.compare();
        Closed {
            book,
            opening,
            first,
            admitted,
        }
    }
}

/// Whether the shares of these desks and stations add up to what rose in the statistics since the book was shared.
pub fn add_up<A: Sharing, S: BookRows>(
    locked: &Locked<A, S>,
    desks: &[Desk<A>],
    stations: &[Station<A>],
) -> bool
    ensures { IsTrue result ↔ AddsUp locked.now desks.now stations.now }
{
    made_by(desks) == locked.came()
        && taken_at(stations) == locked.begun()
        && settled_at(stations) == locked.ended()
}
