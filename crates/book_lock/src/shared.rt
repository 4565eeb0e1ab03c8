//! The book that threads share, and its end.

ghost use Rattle.std.specs.Prelude.{◌≡◌, ◌+◌, ◌-◌, ◌<◌, ◌≤◌, ◌↔◌, ◌⊎◌, ℕ, Ok, Some, All, if◌then◌else◌, length, map, min, nat_lt, vec_len, slice_get, IfOk, IfErr, IfSome, IsOk, OnOk, OnErr, IsTrue};
ghost use Rattle.std.specs.Arc.{arc_value};
ghost use Rattle.judge_core.specs.Judging.{is_bookable};
ghost use Rattle.stat_count.specs.Sums.{arrivals};
ghost use Rattle.event_log.specs.History.{message_count, next_place, plan_in_force, slot};
ghost use Rattle.book_core.specs.inner.Questions.{front_at};
ghost use Rattle.book_lock.specs.declared.message.Found.TheVariants as Found;
ghost use Rattle.event_log.specs.Counting.{counted};
ghost use Rattle.event_log.specs.Event.{cancel, deploy, settle};
ghost use Rattle.book_lock.specs.inner.Closing.{HandsBack};
ghost use Rattle.book_lock.specs.Durable.{HasCommitted};
ghost use Rattle.book_lock.specs.Rises.{AddsUp};
ghost use Rattle.book_lock.specs.Log.{Arrives, Calls, Linearizes, Looks, Takes, IsCalled, IsPruneRefused, IsPruned, IsReadOf};
ghost use Rattle.book_lock.specs.Callers.{IsClosedBy};
ghost use Rattle.book_lock.specs.inner.Arriving.{ArrivesAtDesk};
ghost use Rattle.book_lock.specs.inner.Log.{new_seats};
ghost use Rattle.book_lock.specs.inner.Planning.{WasInForce};
ghost use Rattle.book_lock.specs.inner.Reading.{IsFound, IsGaugeOf, IsStatusOf, failed_among, first_live_at, found_among, text_for, waiting_among};
ghost use Rattle.book_lock.specs.inner.Shares.{no_calls, with_settlement, with_take};
ghost use Rattle.book_lock.specs.Shares.{seats_of};
ghost use Rattle.book_lock.specs.inner.Tidies.{ArrivesAtTidied, IsHeldBackAt};

mod journal;

use crate::crowding::Crowded;
use crate::desks::{Desk, Station, open_desks, open_stations};
use crate::locked::{Closed, Locked, Sharing, add_up};
use crate::log_entry::LogEntry;
use crate::message::{Found, Message, text_of};
use crate::status::{Gauge, Status};
use crate::tidying::Tidied;
use book_core::{
    Book, BookRows, CancelRefusal, DeployRefusal, Failure, Front, Job, NotBooked, PruneRefusal,
    Receipt, TakeRefusal, Ticket, Told,
};
use dest_queue::{Outcome, SettleRefusal, SlotState};
use ghost_log::{BlankLog, GhostLog};
use hl7_head::Moment;
use judge_core::{Delivery, Judged, Text, Verdict};
use plan_text::Plan;
use row_store::QUEUES;
use stat_count::Counts;
use std::alloc::{AllocError, Global};
use std::sync::atomic::{AtomicBool, Ordering};
use std::sync::{Arc, Condvar, Mutex, MutexGuard, Wait};
use std::time::{Clock, Duration};

/// How long a worker that hears nothing sleeps at most, in milliseconds: an idle worker wakes four times a second.
const NAP: u64 = 250;

/// The book under one lock. A call holds it for a moment; one that prunes (`prune`, `prune_settled`, and an arrival that tidies)
/// holds it in proportion to what is remembered. None waits for anything else but `bell`.
#[derive(Drop)]
pub struct Shared<A: Sharing, S: BookRows> {
    locked: Mutex<Locked<A, S>>,
    bells: Vec<Condvar>,
    finished: AtomicBool,
    /// Signalled when further entries become durable, and when the journal fails.
    became_durable: Condvar,
    /// Signalled when a thread begins to wait for entries to become durable.
    journal_bell: Condvar,
}

/// A book that was shared just now, with those among whom it is shared.
#[derive(Drop)]
pub struct Opened<A: Sharing, S: BookRows> {
    /// The shared book.
    pub shared: Shared<A, S>,
    /// The desks of its arrivals.
    pub desks: Vec<Desk<A>>,
    /// The stations of its takes and settlements.
    pub stations: Vec<Station<A>>,
}

/// Why a shared book was not closed.
#[derive(Drop)]
pub enum NotClosed<A: Sharing, S: BookRows> {
    /// The shares handed in don't add up to what rose in the statistics. All that was handed in is returned.
    SharesMissing {
        shared: Shared<A, S>,
        desks: Vec<Desk<A>>,
        stations: Vec<Station<A>>,
    },
}

/// The destinations at which an arrival begins to wait, as a mask.
fn waits_at(told: Told, verdict: &Verdict) -> u32 {
    match (told, verdict) {
        (Told::Accepted(_), Verdict::Accept(deliveries)) => mask_of(deliveries.as_slice()),
        _ => 0,
    }
}

/// The destinations at which an arrival begins to wait, as a mask; none where it is not booked.
fn waits_where(tidied: &Result<Tidied, Crowded>, verdict: &Verdict) -> u32 {
    match tidied {
        Ok(
            Tidied {
                receipt: Ok(receipt),
                ..
            },
        ) => waits_at(receipt.told, verdict),
        _ => 0,
    }
}

/// The answer to a question about a message that a book of `count` messages doesn't remember.
fn not_kept(number: u32, count: u32) -> Found
    ensures { result ≡ (if nat_lt number count then Found.Forgotten else Found.ToCome) }
{
    if number < count {
        Found::Forgotten
    } else {
        Found::ToCome
    }
}

/// The end of the `most` numbers from `from` on, or of the numbers of all messages where that is less.
fn end_of<S: BookRows>(book: &Book<S>, from: u32, most: u32) -> u32
    ensures { result ≡ min (message_count book.now) (from + most) }
{
    book.message_count().min(from.saturating_add(most))
}

/// The states of a message, by destination.
#[tactic(auto, using(crate::proofs::Filling::filled_more, crate::proofs::Filling::none_filled))]
fn states_of<S: BookRows>(book: &Book<S>, number: u32) -> [Option<SlotState>; QUEUES as usize]
    ensures { (d : ℕ) → d < 32 → slice_get result d ≡ Some (slot book.now number d) }
{
    let mut states = [None; QUEUES as usize];
    for d in 0..QUEUES {
        states[d as usize] = book.status(number, d);
    }
    states
}

/// The destinations of deliveries as a mask.
fn mask_of(deliveries: &[Delivery]) -> u32
    requires { All (λ x. x.destination < 32) deliveries.now }
{
    let mut mask = 0;
    for delivery in deliveries {
        mask |= 1 << delivery.destination;
    }
    mask
}

/// A bell for each queue.
fn hang_bells(alloc: Global) -> Result<Vec<Condvar>, AllocError> {
    let mut bells = Vec::with_capacity(alloc, QUEUES as usize)?;
    for _ in 0..QUEUES {
        bells.push(Condvar::new())?;
    }
    Ok(bells)
}

impl<A: Sharing, S: BookRows> Shared<A, S> {
    /// Shares the book among that many desks and stations. The log's blank has no entries.
    ///
    /// # Errors
    ///
    /// Where memory is refused; the book is handed back.
    pub fn new(
        alloc: Global,
        book: Book<S>,
        desks: usize,
        stations: usize,
        log: BlankLog<LogEntry>,
    ) -> Result<Opened<A, S>, Book<S>>
        requires opening { book ≡ A.opening }
        requires log { log.table.shared.table_id ≡ A.table }
        requires counts { counted book ≡ A.counts }
        requires first { next_place book ≡ A.first }
        requires channels { length (plan_in_force book).channels ≡ A.channels }
        requires seats { (A.desks ≡ desks) × (A.stations ≡ stations) }
        ensures desks { IfOk result (λ r. (vec_len r.desks ≡ desks) × All (λ d. d.made ≡ 0) r.desks.items) }
        ensures stations { IfOk result (λ r.
            (vec_len r.stations ≡ stations) × All (λ s. s.counts ≡ no_calls) r.stations.items) }
        ensures seats { IfOk result (λ r.
            (map (λ d. d.seat) r.desks.items ≡ new_seats 0 desks)
            × (map (λ s. s.seat) r.stations.items ≡ new_seats desks stations)) }
        ensures back { IfErr result (λ b. b ≡ book) }
    {
        let mut log = GhostLog::open(log);
        let Ok(bells) = hang_bells(alloc) else {
            return Err(book);
        };
        let Ok(desks) = open_desks(alloc, &mut log, desks) else {
            return Err(book);
        };
        let Ok(stations) = open_stations(alloc, &mut log, stations) else {
            return Err(book);
        };
        let locked = Locked::new(book, log);
        let shared = Shared {
            locked: Mutex::new(locked),
            bells,
            finished: AtomicBool::new(false),
            became_durable: Condvar::new(),
            journal_bell: Condvar::new(),
        };
        Ok(Opened {
            shared,
            desks,
            stations,
        })
    }

    /// The plan in force.
    ///
    /// # Errors
    ///
    /// Where the plan has more owners than can be counted.
    pub fn plan<H: Wait>(&self, rt: &H) -> Result<Arc<Plan>, AllocError>
        ensures channels { IfOk result (λ plan. length (arc_value plan).channels ≡ A.channels) }
        ensures read { IfOk result (λ plan. IsReadOf A.opening
            (λ book. arc_value plan ≡ plan_in_force book)) }
    {
        let locked = self.locked.lock(rt);
        locked.book_is_logged();
        Ok(Arc::try_clone(locked.plan())?)
    }

    /// The plan in force, by which messages are judged at the desk from now on.
    ///
    /// # Errors
    ///
    /// Where the plan has more owners than can be counted.
    pub fn plan_at<H: Wait>(&self, rt: &H, desk: &mut Desk<A>) -> Result<Arc<Plan>, AllocError>
        ensures channels { IfOk result (λ plan. length (arc_value plan).channels ≡ A.channels) }
        ensures looks { Looks A.opening desk.old.seat desk.new.seat }
        ensures in_force { IfOk result (λ plan. WasInForce A.opening
            desk.new.seat.seen desk.new.deployed (arc_value plan)) }
        ensures made { desk.new.made ≡ desk.old.made }
    {
        self.locked.lock(rt).plan_at(desk)
    }

    /// Books an arrival, and counts it for the desk. The workers of its destinations are woken.
    ///
    /// # Errors
    ///
    /// The book's. A refusal leaves the desk's count as it was, and its seat has seen the moment of it.
    pub fn arrive<H: Wait>(
        &self,
        rt: &H,
        desk: &mut Desk<A>,
        conn: u32,
        judged: &Judged,
    ) -> Result<Receipt, NotBooked>
        requires { IsTrue (is_bookable judged.now.raw) }
        ensures conn { IfOk result (λ receipt. receipt.conn ≡ conn) }
        ensures channel { IfOk result (λ receipt. receipt.channel ≡ judged.now.channel) }
        ensures raw { IfOk result (λ receipt. receipt.raw ≡ judged.now.raw) }
        ensures call { Arrives A.opening conn judged.now desk.old.seat desk.new.seat result }
        ensures counted { OnOk result (desk.new.made ≡ desk.old.made + 1) }
        ensures refused { OnErr result (desk.new.made ≡ desk.old.made) }
    {
        let mut locked = self.locked.lock(rt);
        let booked = locked.arrive(desk, conn, judged);
        let Ok(receipt) = &booked else {
            return booked;
        };
        self.ring(locked, waits_at(receipt.told, judged.verdict()));
        booked
    }

    /// Books an arrival that was judged by the plan that the desk was given, and counts it for the desk. That plan is
    /// compared with the one in force only where another plan was deployed since. The workers of its destinations are woken.
    ///
    /// # Errors
    ///
    /// The book's. A refusal leaves the desk's count as it was, and its seat has seen the moment of it.
    pub fn arrive_judged<H: Wait>(
        &self,
        rt: &H,
        desk: &mut Desk<A>,
        conn: u32,
        judged: &Judged,
    ) -> Result<Receipt, NotBooked>
        requires bookable { IsTrue (is_bookable judged.now.raw) }
        requires by_plan { WasInForce A.opening
            desk.old.seat.seen desk.old.deployed judged.now.plan }
        ensures { ArrivesAtDesk A.opening conn judged.now desk.old desk.new result }
    {
        let mut locked = self.locked.lock(rt);
        let booked = locked.arrive_judged(desk, conn, judged);
        let Ok(receipt) = &booked else {
            return booked;
        };
        self.ring(locked, waits_at(receipt.told, judged.verdict()));
        booked
    }

    /// Takes the front of queue `d` to be sent, and counts it for the station.
    ///
    /// # Errors
    ///
    /// The book's. A refusal leaves the station's counts as they were, and its seat has seen the moment of it.
    pub fn take<H: Wait>(
        &self,
        rt: &H,
        station: &mut Station<A>,
        d: u32,
        now: Moment,
    ) -> Result<Job, TakeRefusal>
        ensures destination { IfOk result (λ job. job.ticket.destination ≡ d) }
        ensures call { Takes A.opening d now station.old.seat station.new.seat result }
        ensures counted { OnOk result (station.new.counts ≡ with_take station.old.counts) }
        ensures refused { OnErr result (station.new.counts ≡ station.old.counts) }
    {
        self.locked.lock(rt).take(station, d, now)
    }

    /// Settles an attempt, and counts it for the station. It requests no memory.
    ///
    /// # Errors
    ///
    /// The book's. A refusal leaves the station's counts as they were, and its seat has seen the moment of it.
    pub fn settle<H: Wait>(
        &self,
        rt: &H,
        station: &mut Station<A>,
        ticket: &Ticket,
        outcome: Outcome,
        now: Moment,
    ) -> Result<SlotState, SettleRefusal>
        ensures delivered { IfOk result (λ state. (state ≡ SlotState.Delivered) ↔ (outcome ≡ Outcome.Delivered)) }
        ensures call { Calls A.opening (settle ticket.now outcome now)
            station.old.seat station.new.seat result }
        ensures counted { OnOk result (station.new.counts ≡ with_settlement station.old.counts) }
        ensures refused { OnErr result (station.new.counts ≡ station.old.counts) }
    {
        self.locked.lock(rt).settle(station, ticket, outcome, now)
    }

    /// Cancels a message wherever it waits, and answers these destinations as a mask.
    ///
    /// # Errors
    ///
    /// The book's.
    pub fn cancel<H: Wait>(&self, rt: &H, number: u32) -> Result<u32, CancelRefusal>
        ensures somewhere { IfOk result (λ mask. 0 < mask) }
        ensures call { IsCalled A.opening (cancel number 4294967295) result }
    {
        self.cancel_among(rt, number, u32::MAX)
    }

    /// Cancels a message where it waits at one of the destinations of the mask `among`, which has bit d for destination d,
    /// and answers as a mask where it did.
    ///
    /// # Errors
    ///
    /// The book's.
    pub fn cancel_among<H: Wait>(
        &self,
        rt: &H,
        number: u32,
        among: u32,
    ) -> Result<u32, CancelRefusal>
        ensures somewhere { IfOk result (λ mask. 0 < mask) }
        ensures call { IsCalled A.opening (cancel number among) result }
    {
        let mut locked = self.locked.lock(rt);
        let mask = locked.cancel_among(number, among)?;
        self.ring(locked, mask);
        Ok(mask)
    }

    /// Puts another plan in force. A message that was judged by the one before is answered PlanChanged where it is booked
    /// afterwards.
    ///
    /// # Errors
    ///
    /// The book's. A refusal drops the plan.
    pub fn deploy<H: Wait>(&self, rt: &H, plan: Arc<Plan>) -> Result<(), DeployRefusal>
        ensures channels { OnOk result (length (arc_value plan).channels ≡ A.channels) }
        ensures call { IsCalled A.opening (deploy (arc_value plan)) result }
    {
        self.locked.lock(rt).deploy(plan)
    }

    /// Forgets the messages numbered below `before`, and folds all entries. The receipts of folded arrivals are left aside in
    /// the audit.
    ///
    /// # Errors
    ///
    /// The book's.
    pub fn prune<H: Wait>(&self, rt: &H, before: u32) -> Result<(), PruneRefusal>
        ensures call { IsPruned A.opening before result }
    {
        self.locked.lock(rt).prune(before)
    }

    /// Forgets the messages that are settled at each of their destinations, but for the last `keep` messages and for all
    /// from the first on that is still to be delivered, and folds all entries. It returns the number before which all is
    /// forgotten. It takes time for what is forgotten and for what is remembered, and holds the lock as long.
    ///
    /// # Errors
    ///
    /// `TooMany` where `PRUNINGS_MAX` prunings were made, and then `NoMemory`. A refusal leaves the book as it was.
    pub fn prune_settled<H: Wait>(&self, rt: &H, keep: u32) -> Result<u32, PruneRefusal>
        ensures refused { IfErr result (λ e. (e ≡ PruneRefusal.TooMany) ⊎ (e ≡ PruneRefusal.NoMemory)) }
        ensures call { IfOk result (λ before. IsPruned A.opening before (Ok tt)) }
        ensures refused_call { IfErr result (IsPruneRefused A.opening) }
    {
        self.locked.lock(rt).prune_settled(keep)
    }

    /// Books an arrival as `arrive` does, and counts it for the desk, unless its channel has a route to a crowded destination. A
    /// book that is tight is pruned before that, under the same lock, as `prune_settled` does, and so is one that has no room
    /// for the arrival, where at least a sixty-fourth of its bound is entries; where memory is refused for that, once more with
    /// `keep` 0. Where it is refused as `Full`, it is found under the same lock which arrival it repeats, if it does. The workers
    /// of its destinations are woken.
    ///
    /// # Errors
    ///
    /// `Crowded` of the first crowded destination that the channel has a route to: nothing is booked, and the desk is as it was.
    /// The receipt's are the book's. A refusal leaves the desk's count as it was, and its seat has seen the moment of it.
    pub fn arrive_tidy<H: Wait>(
        &self,
        rt: &H,
        desk: &mut Desk<A>,
        conn: u32,
        judged: &Judged,
        keep: u32,
    ) -> Result<Tidied, Crowded>
        requires { IsTrue (is_bookable judged.now.raw) }
        ensures arrives { IfOk result
            (ArrivesAtTidied A.opening conn judged.now desk.old desk.new) }
        ensures crowded { IfErr result (IsHeldBackAt A.opening judged.now.channel) }
        ensures same_desk { OnErr result (desk.new ≡ desk.old) }
    {
        let mut locked = self.locked.lock(rt);
        let tidied = locked.arrive_tidy(desk, conn, judged, keep);
        locked.book_is_logged();
        self.ring(locked, waits_where(&tidied, judged.verdict()));
        tidied
    }

    /// Books an arrival that was judged by the plan that the desk was given, as `arrive_judged` does, where `arrive_tidy` would
    /// book it, and after what that does. The workers of its destinations are woken.
    ///
    /// # Errors
    ///
    /// Those of `arrive_tidy`.
    pub fn arrive_tidy_judged<H: Wait>(
        &self,
        rt: &H,
        desk: &mut Desk<A>,
        conn: u32,
        judged: &Judged,
        keep: u32,
    ) -> Result<Tidied, Crowded>
        requires bookable { IsTrue (is_bookable judged.now.raw) }
        requires by_plan { WasInForce A.opening
            desk.old.seat.seen desk.old.deployed judged.now.plan }
        ensures arrives { IfOk result
            (ArrivesAtTidied A.opening conn judged.now desk.old desk.new) }
        ensures crowded { IfErr result (IsHeldBackAt A.opening judged.now.channel) }
        ensures same_desk { OnErr result (desk.new ≡ desk.old) }
    {
        let mut locked = self.locked.lock(rt);
        let tidied = locked.arrive_tidy_judged(desk, conn, judged, keep);
        locked.book_is_logged();
        self.ring(locked, waits_where(&tidied, judged.verdict()));
        tidied
    }

    /// The number of the next connection, counted from 0; no number is given twice. None once 4,294,967,295 numbers were
    /// given.
    pub fn admit<H: Wait>(&self, rt: &H) -> Option<u32>
        ensures { IfSome result (λ number. number < u32.MAX) }
    {
        self.locked.lock(rt).admit()
    }

    /// How full the book is.
    pub fn gauge<H: Wait>(&self, rt: &H) -> Gauge
        ensures room { result.held + result.owed ≤ result.events_max }
        ensures first { result.first ≤ result.messages }
        ensures read { IsReadOf A.opening (λ book. IsGaugeOf book result) }
    {
        let locked = self.locked.lock(rt);
        locked.book_is_logged();
        locked.gauge()
    }

    /// How full the book is, its statistics, the front of each queue, the first message that is still to be delivered and
    /// the plan in force, all read under one lock.
    ///
    /// # Errors
    ///
    /// Where the plan has more owners than can be counted.
    pub fn status<H: Wait>(&self, rt: &H) -> Result<(Status, Arc<Plan>), AllocError>
        ensures room { IfOk result (λ shown. shown.0.gauge.held + shown.0.gauge.owed ≤ shown.0.gauge.events_max) }
        ensures channels { IfOk result (λ shown. length (arc_value shown.1).channels ≡ A.channels) }
        ensures read { IfOk result (λ shown. IsReadOf A.opening
            (λ book. IsStatusOf book shown.0 (arc_value shown.1))) }
    {
        let mut locked = self.locked.lock(rt);
        locked.book_is_logged();
        let plan = Arc::try_clone(locked.plan())?;
        Ok((locked.status(), plan))
    }

    /// The message at the front of queue `d` with its state there, if there is one.
    pub fn front<H: Wait>(&self, rt: &H, d: u32) -> Option<Front>
        ensures { IsReadOf A.opening (λ book. result ≡ front_at book d) }
    {
        let mut locked = self.locked.lock(rt);
        locked.book_is_logged();
        locked.front(d)
    }

    /// The first message that is still to be delivered to a destination, with the first such destination, if there is one.
    pub fn first_live<H: Wait>(&self, rt: &H) -> Option<(u32, u32)>
        ensures { IsReadOf A.opening (λ book. result ≡ first_live_at book) }
    {
        let mut locked = self.locked.lock(rt);
        locked.book_is_logged();
        let number = locked.first_live()?;
        let d = locked.book().live_at(number)?;
        Some((number, d))
    }

    /// What the book says of message `number`.
    ///
    /// # Errors
    ///
    /// Where its bytes have more owners than can be counted.
    pub fn message<H: Wait>(&self, rt: &H, number: u32) -> Result<Found, AllocError>
        ensures { IfOk result (λ found. IsReadOf A.opening (λ book. IsFound book number found)) }
    {
        let locked = self.locked.lock(rt);
        locked.book_is_logged();
        let book = locked.book();
        let Some(letter) = book.message(number) else {
            return Ok(not_kept(number, book.message_count()));
        };
        Ok(Found::Kept(Message {
            channel: letter.channel(),
            conn: book.connection(number),
            raw: letter.raw().share()?,
            states: states_of(book, number),
        }))
    }

    /// The text of message `number` for destination `d`, as the steps of its route left it, where the message is remembered and
    /// goes there.
    ///
    /// # Errors
    ///
    /// Where the text has more owners than can be counted.
    pub fn text_for<H: Wait>(&self, rt: &H, number: u32, d: u32) -> Result<Option<Text>, AllocError>
        ensures { IfOk result (λ text. IsReadOf A.opening (λ book. text ≡ text_for book number d)) }
    {
        let locked = self.locked.lock(rt);
        locked.book_is_logged();
        text_of(locked.book(), number, d)
    }

    /// The messages that are still to be delivered to destination `d`, of the `most` numbers from `from` on, in order, with
    /// their states there. It looks at no other message.
    ///
    /// # Errors
    ///
    /// Where memory for the answer is refused.
    pub fn waiting<H: Wait>(
        &self,
        rt: &H,
        d: u32,
        from: u32,
        most: u32,
    ) -> Result<Vec<Front>, AllocError>
        ensures { IfOk result (λ found. IsReadOf A.opening
            (λ book. found.items ≡ waiting_among book d from most)) }
    {
        let locked = self.locked.lock(rt);
        locked.book_is_logged();
        let book = locked.book();
        book.queued_among(d, from, end_of(book, from, most))
    }

    /// The messages that failed at destination `d`, of the `most` numbers from `from` on, in order, with why. It looks at no
    /// other message.
    ///
    /// # Errors
    ///
    /// Where memory for the answer is refused.
    pub fn failed<H: Wait>(
        &self,
        rt: &H,
        d: u32,
        from: u32,
        most: u32,
    ) -> Result<Vec<Failure>, AllocError>
        ensures { IfOk result (λ found. IsReadOf A.opening
            (λ book. found.items ≡ failed_among book d from most)) }
    {
        let locked = self.locked.lock(rt);
        locked.book_is_logged();
        let book = locked.book();
        book.failed_among(d, from, end_of(book, from, most))
    }

    /// The numbers of the remembered messages with this control id (MSH-10, raw), of the `most` numbers from `from` on, in
    /// order. It looks at no other message.
    ///
    /// # Errors
    ///
    /// Where memory for the answer is refused.
    pub fn find<H: Wait>(
        &self,
        rt: &H,
        id: &[u8],
        from: u32,
        most: u32,
    ) -> Result<Vec<u32>, AllocError>
        ensures { IfOk result (λ found. IsReadOf A.opening
            (λ book. found.items ≡ found_among book id.now from most)) }
    {
        let locked = self.locked.lock(rt);
        locked.book_is_logged();
        let book = locked.book();
        book.found_among(id, from, end_of(book, from, most))
    }

    /// The statistics, with at least the arrivals that the desk made.
    pub fn counts<H: Wait>(&self, rt: &H, desk: &mut Desk<A>) -> Counts
        ensures shown { arrivals A.counts + desk.old.made ≤ arrivals result }
        ensures same { desk.new ≡ desk.old }
        ensures read { IsReadOf A.opening (λ book. result ≡ counted book) }
    {
        let mut locked = self.locked.lock(rt);
        locked.book_is_logged();
        locked.counts(desk)
    }

    /// Waits for a change at destination `d`, or a short while. It returns at once where there was one since the last call.
    pub fn bell<H: Wait + Clock>(&self, rt: &H, d: u32) {
        let Some(bell) = self.bells.get(d as usize) else {
            return;
        };
        let mut locked = self.locked.lock(rt);
        if d < QUEUES && !locked.take_change(d) {
            let (mut woken, _) = bell.wait_timeout(rt, locked, Duration::from_millis(NAP));
            let _heard = woken.take_change(d);
        }
    }

    /// Notes that no arrival will follow, and wakes all.
    pub fn finish<H: Wait>(&self, rt: &H) {
        self.finished.store(true, Ordering::SeqCst);
        let _rung = self.locked.lock(rt).mark_changed(u32::MAX);
        self.wake(u32::MAX);
    }

    /// Whether it was noted that no arrival will follow.
    pub fn is_finished(&self) -> bool {
        self.finished.load(Ordering::SeqCst)
    }

    /// Notes a change at the destinations of a mask, unlocks the book, and wakes the workers of those destinations at which
    /// none was noted before.
    fn ring(&self, mut locked: MutexGuard<Locked<A, S>>, mask: u32) {
        let changed = locked.mark_changed(mask);
        drop(locked);
        self.wake(changed);
    }

    /// Wakes the workers that wait at the destinations of a mask.
    fn wake(&self, mask: u32) {
        for d in 0..QUEUES {
            if mask >> d & 1 == 1 {
                if let Some(bell) = self.bells.get(d as usize) {
                    bell.notify_all();
                }
            }
        }
    }

    /// Takes the book out of the lock, where the shares handed in add up to what rose in its statistics. Where all desks
    /// and stations are handed in, they do. The log accounts for what the book then says of each message: it is delivered
    /// where a seat settled it so, and an attempt that was taken and not settled is in flight. Each arrival of the log was
    /// booked at one of these desks, and each take and each settlement was made at one of these stations.
    ///
    /// # Errors
    ///
    /// `SharesMissing` where they don't. All that was handed in is returned, and the shared book with the note of `finish`,
    /// if that was made.
    pub fn close(
        self,
        mut desks: Vec<Desk<A>>,
        mut stations: Vec<Station<A>>,
    ) -> Result<Closed<S>, NotClosed<A, S>>
        ensures adds_up { IfOk result (λ closed. AddsUp closed desks.items stations.items) }
        ensures opening { IfOk result (λ closed. (closed.opening ≡ A.counts) × (closed.first ≡ A.first)) }
        ensures whole { (vec_len desks ≡ A.desks) × (vec_len stations ≡ A.stations) → IsOk result }
        ensures one_history { IfOk result (λ closed.
            Linearizes A.opening (A.desks + A.stations + 1)
            (seats_of desks.items stations.items) closed.book) }
        ensures committed { IfOk result (λ closed.
            HasCommitted A.opening A.committed (A.desks + A.stations + 1)
            (seats_of desks.items stations.items) closed.book) }
        ensures closed { IfOk result (λ closed.
            IsClosedBy A.opening (A.desks + A.stations + 1) desks.items stations.items closed.book) }
        ensures back { IfErr result (HandsBack self desks.items stations.items) }
    {
        let Shared {
            locked,
            bells,
            finished,
            became_durable,
            journal_bell,
        } = self;
        let locked = locked.into_inner();
        if add_up(&locked, &desks, &stations) {
            return Ok(locked.close(desks, stations));
        }
        let locked = locked.compared(&mut desks, &mut stations);
        Err(NotClosed::SharesMissing {
            shared: Shared {
                locked: Mutex::new(locked),
                bells,
                finished,
                became_durable,
                journal_bell,
            },
            desks,
            stations,
        })
    }
}
