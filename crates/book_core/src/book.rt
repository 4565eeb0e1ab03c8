//! The book itself.

ghost use Rattle.std.specs.Prelude.{◌≡◌, ◌≢◌, ◌≤◌, ◌<◌, ◌+◌, ◌-◌, ◌==◌, ◌⊎◌, ◌↔◌, ℕ, Ok, Err, IsOk, IfOk, IfErr, OnOk, OnErr, IsErrOf, IsTrue, None, Some, true, false, if◌then◌else◌, nat_lt, length, IfSome, option_copied};
ghost use Rattle.std.specs.List.{range_with_len};
ghost use Rattle.std.specs.Option.{option_map};
ghost use Rattle.std.specs.Arc.{arc_value};
ghost use Rattle.judge_core.specs.Delivering.{destinations_of};
ghost use Rattle.judge_core.specs.Judging.{is_bookable, verdict};
ghost use Rattle.dest_queue.specs.States.{is_live};
ghost use Rattle.event_log.specs.History.{control_id, control_id_of, deliveries, entry_at, followed_by, message_at, message_count, names, next_place, payload, plan_in_force, queue, remaining, slot};
ghost use Rattle.event_log.specs.inner.History.{snapshot_after};
ghost use Rattle.event_log.specs.Answers.{arrival_answer, cancel_answer, take_answer};
ghost use Rattle.event_log.specs.Deployment.{deploy_answer, deployments, first_lost, is_lost};
ghost use Rattle.event_log.specs.Event.{MemoryIsLast, Does, arrive, cancel, deploy, result_map, settle, take};
ghost use Rattle.event_log.specs.Folding.{is_live_message, prune_answer, pruned};
ghost use Rattle.event_log.specs.Legal.{MayFollow};
ghost use Rattle.event_log.specs.inner.Legal.{IsSound};
ghost use Rattle.event_log.specs.Room.{is_full, owed, committed_by_new};
ghost use Rattle.event_log.specs.Counting.{counted};
ghost use Rattle.book_core.specs.Headline.{KeepsItsPromise};
ghost use Rattle.book_core.specs.inner.Parts.{IsKept};
ghost use Rattle.book_core.specs.inner.Questions.{CameBy, came_as, first_live, front_at, has_control_id, is_tight, live_at, queued_as, settled_before};
ghost use Rattle.book_core.specs.Receiving.{IsReceipt, arrival_reply, repeat_of};
ghost use Rattle.book_core.specs.Sending.{awaits_ack};
ghost use Rattle.book_core.specs.inner.Sending.{IsAddition, goes_to, owed_waiting};

mod lists;

use crate::arrival::{Addition, add_gain, gain_of, owed_by, repeat_of, told};
use crate::dispatch::{awaits_ack, owed_waiting};
use crate::event_counts::{count_arrival, count_cancelled, count_settled};
use crate::letter::{BookRows, Job, Outbound};
use crate::pruning::{first_kept, forget_rows, prune_refusal, recall_since, unremembered};
use crate::questions::{Front, first_queued, is_tight};
use crate::receipt::{NotBooked, Receipt};
use dest_queue::{
    KeptState, Outcome, SettleRefusal, SlotState, begin_attempt, cancel_among, front_state,
    settle_slot, slot_of,
};
use dup_index::Keys;
use event_log::{
    CancelRefusal, DEPLOYMENTS_MAX, DeployRefusal, EVENTS_MAX, Entry, Log, PruneRefusal, Snapshot,
    TakeRefusal, Ticket, Told, attempts_max, front_answer, interval, keeps_destination,
    same_channels, slot_owed,
};
use hl7_head::Moment;
use judge_core::{Judged, Text, TextPiece};
use plan_text::Plan;
use row_store::QUEUES;
use stat_count::Counts;
use std::alloc::{AllocError, Global};
use std::hash::RandomState;
use std::marker::Model;
use std::sync::Arc;

/// All that was booked, and what is kept beside it so that the next answer is found without reading it again: a row for
/// each accepted message, the keys by which repeats are known, the statistics, and how many attempts are under way.
#[derive(Drop)]
pub struct Book<S: BookRows> {
    alloc: Global,
    log: Log,
    rows: S,
    keys: Keys,
    counts: Counts,
    flights: u32,
}

impl<S: BookRows> Model for Book<S> {
    ghost use Rattle.event_log.specs.History.{History};
    ghost use Rattle.event_log.specs.inner.Coding.{history_code};
    ghost use Rattle.book_core.specs.inner.Parts.{IsKept};

    ghost Value = { History };

    ghost coded = { history_code };

    ghost view = { λ b. b.log.history };

    ghost invariant = { λ b. IsKept b.log.history (S.rows b.rows) b.keys.known b.counts b.flights b.log.room };
}

impl<S: BookRows> Book<S> {
    /// An empty book that may hold `events_max` entries. Its keys are hashed by `hasher`.
    pub fn new(alloc: Global, plan: Arc<Plan>, events_max: u32, hasher: RandomState) -> Book<S>
        requires some { 1 ≤ events_max }
        requires few { events_max ≤ EVENTS_MAX }
        ensures { result ≡ snapshot_after (arc_value plan) events_max }
    {
        plan.rules();
        Book {
            alloc,
            log: Log::new(alloc, plan, events_max),
            rows: S::make(alloc),
            keys: Keys::new(alloc, hasher),
            counts: Counts::new(),
            flights: 0,
        }
    }

    /// The book of this history, of whose messages these are the rows, the keys and the statistics; `flights` is how many
    /// attempts are under way.
    pub fn of_parts(
        alloc: Global,
        log: Log,
        rows: S,
        keys: Keys,
        counts: Counts,
        flights: u32,
    ) -> Book<S>
        requires { IsKept log.history (S.rows rows) keys.known counts flights log.room }
        ensures { result ≡ log.history }
    {
        Book {
            alloc,
            log,
            rows,
            keys,
            counts,
            flights,
        }
    }

    /// What the history goes on from.
    pub fn opening(&self) -> &Snapshot
        ensures { result.now ≡ self.now.opening }
    {
        self.log.opening()
    }

    /// The plan in force.
    pub fn plan(&self) -> &Arc<Plan>
        ensures { arc_value result.now ≡ plan_in_force self.now }
    {
        self.log.plan()
    }

    /// How many entries were booked in all: the index of the next.
    pub fn len(&self) -> usize
        ensures { result ≡ next_place self.now }
    {
        self.log.len()
    }

    /// How many entries were folded: the index of the first that the book holds.
    pub fn first_place(&self) -> usize
        ensures value { result ≡ self.now.opening.places }
        ensures within { result ≤ next_place self.now }
    {
        self.log.first_place()
    }

    /// How many messages were accepted: the number of the next.
    pub fn message_count(&self) -> u32
        ensures { result ≡ message_count self.now }
    {
        self.log.message_count()
    }

    /// How many entries the book holds: those that were folded are not among them.
    pub fn held(&self) -> usize
        ensures value { result ≡ length self.now.entries }
        ensures within { result + owed self.now ≤ self.now.opening.events_max }
    {
        let _owed = self.log.owed();
        self.log.len() - self.log.first_place()
    }

    /// How many entries may still follow from the deliveries of its messages. The book keeps room for them.
    pub fn owed(&self) -> u32
        ensures { result ≡ owed self.now }
    {
        self.log.owed()
    }

    /// The most entries that the book may hold, those owed included.
    pub fn events_max(&self) -> u32
        ensures { result ≡ self.now.opening.events_max }
    {
        self.log.events_max()
    }

    /// How many prunings were made, of `PRUNINGS_MAX`.
    pub fn prunings(&self) -> u32
        ensures { result ≡ self.now.opening.prunings }
    {
        self.log.prunings()
    }

    /// How many plans were deployed, of `DEPLOYMENTS_MAX`.
    pub fn deployments(&self) -> u32
        ensures { result ≡ deployments self.now }
    {
        self.log.deployments()
    }

    /// Whether more than three quarters of the bound are held or owed, and an eighth at least is held, so that a pruning
    /// makes room.
    pub fn is_tight(&self) -> bool
        ensures { result ≡ is_tight self.now }
    {
        is_tight(self.held(), self.owed(), self.events_max())
    }

    /// How many of the accepted messages are not forgotten.
    pub fn remembered(&self) -> usize
        ensures { result ≡ length (remaining self.now) }
    {
        self.rows.len()
    }

    /// The number of the first message that is not forgotten, or of the next one where all are: the messages from this
    /// number on are remembered.
    pub fn first_remembered(&self) -> u32
        ensures within { result ≤ message_count self.now }
        ensures rest { remaining self.now ≡ range_with_len result (message_count self.now - result) }
    {
        first_kept(&self.log, &self.rows)
    }

    /// The first message that is still to be delivered to a destination, if there is one. No row is searched.
    pub fn first_live(&mut self) -> Option<u32>
        ensures first { result ≡ first_live self.old }
        ensures unchanged { self.new ≡ self.old }
    {
        first_queued(&mut self.rows)
    }

    /// The first destination to which message `number` is still to be delivered, if there is one.
    pub fn live_at(&self, number: u32) -> Option<u32>
        ensures { result ≡ live_at self.now number }
    {
        for d in 0..QUEUES {
            if self.queued(d, number).is_some() {
                return Some(d);
            }
        }
        None
    }

    /// The message at the front of queue `d` with its state there, if there is one.
    pub fn front(&mut self, d: u32) -> Option<Front>
        ensures front { result ≡ front_at self.old d }
        ensures unchanged { self.new ≡ self.old }
    {
        let front = front_state(&mut self.rows, d);
        if d >= QUEUES {
            return None;
        }
        let (number, state) = front?;
        Some(Front { number, state })
    }

    /// Message `number` with its state at destination `d`, if it waits or is in flight there.
    pub fn queued(&self, d: u32, number: u32) -> Option<Front>
        ensures { result ≡ queued_as self.now d number }
    {
        match self.status(number, d) {
            Some(state) if state.is_live() => Some(Front { number, state }),
            _ => None,
        }
    }

    /// What is kept of message `number`, if it is remembered.
    pub fn message(&self, number: u32) -> Option<&Outbound>
        ensures came { option_map came_as (option_copied result) ≡ message_at self.now number }
        ensures control_id { IfSome result (λ letter. letter.now.control_id ≡ control_id self.now number) }
    {
        let message = self.rows.get(number)?;
        Some(&message.content)
    }

    /// The connection over which message `number` arrived, if the book still holds the entry of its arrival.
    pub fn connection(&self, number: u32) -> Option<u32>
        ensures { IfSome result (λ conn. CameBy self.now number conn) }
    {
        let place = self.message(number)?.place();
        match self.log.entry(place) {
            Some(
                Entry::Arrival {
                    conn,
                    told: Told::Accepted(accepted),
                    ..
                },
            ) if *accepted == number => Some(*conn),
            _ => None,
        }
    }

    /// Whether message `number` is remembered and its control id (MSH-10, raw) is `id`.
    pub fn has_control_id(&self, id: &[u8], number: u32) -> bool
        ensures { result ≡ has_control_id self.now id.now number }
    {
        match self.message(number) {
            Some(letter) => letter.control_id() == id,
            None => false,
        }
    }

    /// The number before which `prune` forgets all that is settled but for the last `keep` messages: that of the first
    /// message still to be delivered, or of the next one where none is, and at most as many as were accepted less `keep`.
    pub fn settled_before(&mut self, keep: u32) -> u32
        ensures before { result ≡ settled_before keep self.old }
        ensures kept { result ≤ message_count self.old - keep }
        ensures settled { (n : ℕ) → n < result → is_live_message self.old n ≡ false }
        ensures answer { prune_answer self.old result ≡ (if nat_lt self.old.opening.prunings 1000 then None else Some PruneRefusal.TooMany) }
        ensures unchanged { self.new ≡ self.old }
    {
        let count = self.log.message_count();
        let newest = count.saturating_sub(keep);
        let settled = first_queued(&mut self.rows).unwrap_or(count);
        if newest < settled { newest } else { settled }
    }

    /// Whether the book holds no entry.
    pub fn is_empty(&self) -> bool
        ensures { result ≡ (length self.now.entries == 0) }
    {
        self.log.is_empty()
    }

    /// The entry at this index, counted from 0; nothing where it was folded.
    pub fn entry(&self, place: usize) -> Option<&Entry>
        ensures { option_copied result ≡ entry_at self.now place }
    {
        self.log.entry(place)
    }

    /// The state of message `number` at destination `d`, if it names that destination.
    pub fn status(&self, number: u32, d: u32) -> Option<SlotState>
        ensures { result ≡ slot self.now number d }
    {
        slot_of(&self.rows, number, d)
    }

    /// The statistics.
    pub fn counts(&self) -> &Counts
        ensures { result.now ≡ counted self.now }
    {
        &self.counts
    }

    /// What holds of every book's history.
    pub fn rules(&self)
        ensures sound { IsSound self.now }
        ensures few { self.now.opening.events_max ≤ 1000000 }
    {
        let _ = &self.log;
    }

    /// The rows of the messages that are not forgotten, and the statistics. As long as they are borrowed no event can
    /// reach the book, and so it keeps its promise: it agrees with its history, and the history with the sequential
    /// engine.
    pub fn promise(&self) -> (&S, &Counts)
        ensures { KeepsItsPromise self.now (S.rows result.0.now) result.1.now }
    {
        (&self.rows, &self.counts)
    }

    /// How many messages are still to be delivered to destination `d`.
    pub fn queue_len(&self, d: u32) -> u64
        ensures { result ≡ length (queue self.now d) }
    {
        let counts = &self.counts;
        if d >= QUEUES {
            return 0;
        }
        let here = counts.destination(d);
        here.waiting + here.inflight
    }

    /// The index of the arrival that a message repeats, if there is one: it has the same key (the channel and MSH-10) and the
    /// same bytes, was accepted or filtered, and isn't forgotten. `arrive` answers its index where there is room. Nothing is
    /// booked.
    pub fn repeat_of(&self, judged: &Judged) -> Option<u32>
        requires bookable { IsTrue (is_bookable judged.now.raw) }
        ensures { result ≡ repeat_of self.now judged.now.channel judged.now.raw }
    {
        repeat_of(&self.log, &self.keys, judged)
    }

    /// Books a message that arrived over connection `conn`, with its answer.
    ///
    /// # Errors
    ///
    /// `PlanChanged` where it was judged by another plan than the one in force, then `Full` where there is no room for it
    /// and its deliveries, and then `NoMemory` where a growth was refused. A refusal leaves the book as it was.
    pub fn arrive(&mut self, conn: u32, judged: &Judged) -> Result<Receipt, NotBooked>
        requires bookable { IsTrue (is_bookable judged.now.raw) }

        ensures does { Does (arrive conn judged.now.channel judged.now.raw)
            self.old self.new (arrival_reply result) }
        ensures memory { MemoryIsLast (arrive conn judged.now.channel judged.now.raw)
            self.old (arrival_reply result) }

        // The receipt has the index of the entry, and says what the entry says.
        ensures receipt { IfOk result
            (IsReceipt (next_place self.old) conn judged.now.channel judged.now.raw) }

        // The message was judged by the plan in force.
        ensures plan { IsErrOf result NotBooked.PlanChanged
            ↔ judged.now.plan ≢ plan_in_force self.old }
        ensures same_plan { IsErrOf result NotBooked.Full
            → judged.now.plan ≡ plan_in_force self.old }
    {
        if !judged.plan().same(self.log.plan()) {
            return Err(NotBooked::PlanChanged);
        }
        self.book_arrival(conn, judged)
    }

    /// Books a message that was judged by the plan in force, as [`arrive`](Book::arrive) does. It exists for speed: whoever
    /// has judged by that plan needs no comparison, which takes time in proportion to the plan's text.
    ///
    /// # Errors
    ///
    /// `Full` where there is no room for it and its deliveries, and then `NoMemory` where a growth was refused. A refusal
    /// leaves the book as it was.
    pub fn book_arrival(&mut self, conn: u32, judged: &Judged) -> Result<Receipt, NotBooked>
        requires bookable { IsTrue (is_bookable judged.now.raw) }
        requires same_plan { judged.now.plan ≡ plan_in_force self.old }
        ensures does { Does (arrive conn judged.now.channel judged.now.raw)
            self.old self.new (arrival_reply result) }
        ensures memory { MemoryIsLast (arrive conn judged.now.channel judged.now.raw)
            self.old (arrival_reply result) }
        ensures receipt { IfOk result
            (IsReceipt (next_place self.old) conn judged.now.channel judged.now.raw) }
        ensures plan { result ≢ Err NotBooked.PlanChanged }
    {
        let told = told(&self.log, &self.keys, judged);
        let gain = gain_of(told, judged);
        let own = owed_by(&self.log, gain);
        if !self.log.room(own) {
            return Err(NotBooked::Full);
        }
        Ok(self.add_arrival(conn, judged, told, gain, own)?)
    }

    /// Books an arrival for which there is room. Its answer is found, and so is what it adds and what its slots
    /// will owe.
    fn add_arrival(
        &mut self,
        conn: u32,
        judged: &Judged,
        told: Told,
        gain: Addition<'_>,
        own: u32,
    ) -> Result<Receipt, AllocError>
        requires same_plan { judged.now.plan ≡ plan_in_force self.old }
        requires room { is_full self.old judged.now.channel judged.now.raw ≡ false }
        requires told { arrival_answer self.old judged.now.channel judged.now.raw ≡ Some told }
        requires gain { IsAddition told (control_id_of judged.now.raw) (verdict judged.now.plan judged.now.channel judged.now.raw) gain }
        requires own { own ≡ committed_by_new (plan_in_force self.old) (destinations_of (goes_to gain)) }
        ensures entry { IfOk result (λ receipt. receipt.entry ≡ next_place self.old) }
        ensures conn { IfOk result (λ receipt. receipt.conn ≡ conn) }
        ensures channel { IfOk result (λ receipt. receipt.channel ≡ judged.now.channel) }
        ensures raw { IfOk result (λ receipt. receipt.raw ≡ judged.now.raw) }
        ensures told { IfOk result (λ receipt. receipt.told ≡ told) }
        ensures booked { OnOk result (self.new ≡ followed_by self.old (Entry.Arrival conn judged.now.channel judged.now.raw told)) }
        ensures follows { OnOk result (MayFollow self.old (Entry.Arrival conn judged.now.channel judged.now.raw told)) }
        ensures err { OnErr result (self.new ≡ self.old) }
    {
        self.log.reserve(self.flights as usize + 1)?;
        let place = self.log.len();
        let channel = judged.channel();
        let raw = judged.raw().share()?;
        let kept = judged.raw().share()?;
        add_gain(
            self.alloc,
            &mut self.rows,
            &mut self.keys,
            gain,
            judged.key(),
            place,
            channel,
            &raw,
        )?;
        // All growths are made: nothing below is refused.
        count_arrival(&mut self.counts, channel, told, gain.deliveries());
        let owed = self.log.owed() + own;
        self.log.push(
            Entry::Arrival {
                conn,
                channel,
                raw: kept,
                told,
            },
            owed,
        );
        Ok(Receipt {
            entry: place,
            conn,
            channel,
            raw,
            told,
        })
    }

    /// Takes the message at the front of queue `d` to be sent: the attempt that begins has to be settled. The book keeps
    /// room for that, so a take is never refused for room.
    ///
    /// # Errors
    ///
    /// `Idle` where the queue is empty, `InFlightNow` where the front is under way, `NotDue` where it waits for a later
    /// moment, and `NoMemory` where a growth was refused. A refusal leaves the book as it was.
    pub fn take(&mut self, d: u32, now: Moment) -> Result<Job, TakeRefusal>
        ensures does { Does (take d now) self.old self.new (result_map (λ job. job.ticket) result) }
        ensures memory { MemoryIsLast (take d now) self.old (result_map (λ job. job.ticket) result) }
        ensures control_id { IfOk result (λ job. job.control_id ≡ control_id self.old job.ticket.number) }
        ensures payload { IfOk result (λ job. job.payload ≡ payload self.old job.ticket.number d) }
        ensures ack { IfOk result (λ job. job.ack ≡ awaits_ack (plan_in_force self.old) d) }
    {
        let ticket = self.ticket(d, now)?;
        let (control_id, payload) = self.letter(ticket.number, d)?;
        let ack = awaits_ack(self.log.plan(), d);
        self.log.reserve(self.flights as usize + 2)?;
        // All growths are made: nothing below is refused.
        begin_attempt(&mut self.rows, ticket.number, d, ticket.attempt);
        self.counts.count_taken(d);
        self.flights += 1;
        let owed = self.log.owed() - 1;
        self.log.push(Entry::Take { ticket, now }, owed);
        Ok(Job {
            ticket,
            control_id,
            payload,
            ack,
        })
    }

    /// The answer to a take, before memory is requested.
    fn ticket(&mut self, d: u32, now: Moment) -> Result<Ticket, TakeRefusal>
        ensures answer { result ≡ take_answer self.old d now }
        ensures unchanged { self.new ≡ self.old }
    {
        let front = front_state(&mut self.rows, d);
        if d >= QUEUES {
            return Err(TakeRefusal::Idle);
        }
        match front {
            Some((number, state)) => front_answer(d, now.secs(), number, Some(state)),
            None => Err(TakeRefusal::Idle),
        }
    }

    /// The control id of message `number`, and the text that it has for `d`, which it names.
    fn letter(&self, number: u32, d: u32) -> Result<(TextPiece, Text), AllocError>
        requires { names d (deliveries self.now number) ≡ true }
        ensures { IfOk result (λ letter. letter ≡ (control_id self.now number, payload self.now number d)) }
    {
        let Some(message) = self.rows.get(number) else {
            unreachable!()
        };
        let Some(text) = message.content.payload(d) else {
            unreachable!()
        };
        Ok((message.content.control_id_piece()?, text.share()?))
    }

    /// Settles an attempt with its outcome, and returns the state of the slot afterwards. It requests no memory, and is
    /// never refused for room.
    ///
    /// # Errors
    ///
    /// `NoSlot` where there is no such message or it doesn't name the destination, and `NotInFlight` where that very
    /// attempt is not under way. A refusal leaves the book as it was.
    pub fn settle(
        &mut self,
        ticket: &Ticket,
        outcome: Outcome,
        now: Moment,
    ) -> Result<SlotState, SettleRefusal>
        ensures does { Does (settle ticket.now outcome now) self.old self.new result }

        // A retry is due on the day after the last moment of the calendar at the latest.
        ensures due { (attempts due : ℕ) → result ≡ Ok (SlotState.Waiting attempts due)
            → due ≤ 253370851199 }
    {
        let ticket = *ticket;
        let max = attempts_max(self.log.plan(), ticket.destination);
        let interval = interval(self.log.plan(), ticket.destination);
        let state = settle_slot(
            &mut self.rows,
            ticket.number,
            ticket.destination,
            ticket.attempt,
            outcome,
            now.secs(),
            max,
            interval,
        )?;
        count_settled(&mut self.counts, ticket.destination, state);
        self.flights -= 1;
        let before = SlotState::InFlight {
            attempt: ticket.attempt,
        };
        let owed = self.log.owed() + slot_owed(max, state) - slot_owed(max, before);
        self.log.push(
            Entry::Settle {
                ticket,
                outcome,
                now,
                state: KeptState::new(state),
            },
            owed,
        );
        Ok(state)
    }

    /// Cancels a message wherever it waits, and answers these destinations as a mask: bit d is set for destination d.
    /// Attempts under way stay as they are. It is never refused for room.
    ///
    /// # Errors
    ///
    /// `NoSuchMessage`, `NothingWaiting` where the message waits nowhere, and `NoMemory` where a growth was refused. A
    /// refusal leaves the book as it was.
    pub fn cancel(&mut self, number: u32) -> Result<u32, CancelRefusal>
        ensures does { Does (cancel number 4294967295) self.old self.new result }
        ensures memory { MemoryIsLast (cancel number 4294967295) self.old result }
    {
        self.cancel_among(number, u32::MAX)
    }

    /// Cancels a message where it waits at one of the destinations of the mask `among`, which has bit d for destination d,
    /// and answers as a mask where it did. Its other slots, and attempts under way, stay as they are. It is never refused
    /// for room.
    ///
    /// # Errors
    ///
    /// `NoSuchMessage`, `NothingWaiting` where the message waits at none of these destinations, and `NoMemory` where a
    /// growth was refused. A refusal leaves the book as it was.
    pub fn cancel_among(&mut self, number: u32, among: u32) -> Result<u32, CancelRefusal>
        ensures does { Does (cancel number among) self.old self.new result }
        ensures memory { MemoryIsLast (cancel number among) self.old result }
    {
        let waiting = self.waiting_owed(number, among)?;
        self.log.reserve(self.flights as usize + 1)?;
        // All growths are made: nothing below is refused.
        let Some(mask) = cancel_among(&mut self.rows, number, among) else {
            unreachable!()
        };
        count_cancelled(&mut self.counts, mask);
        let owed = self.log.owed() - waiting;
        let entry = Entry::Cancel {
            number,
            among,
            mask,
        };
        self.log.push(entry, owed);
        Ok(mask)
    }

    /// What a message owes where it waits at a destination of the mask, or why it can't be cancelled there.
    fn waiting_owed(&self, number: u32, among: u32) -> Result<u32, CancelRefusal>
        ensures owed { IfOk result (λ owed. owed ≡ owed_waiting (plan_in_force self.now) among (slot self.now number)) }
        ensures waits { OnOk result (IsOk (cancel_answer self.now number among)) }
        ensures refused { IfErr result (λ e. cancel_answer self.now number among ≡ Err e) }
    {
        let Some(message) = self.rows.get(number) else {
            return Err(CancelRefusal::NoSuchMessage);
        };
        // A slot that waits owes its cancellation at least.
        let owed = owed_waiting(self.log.plan(), &message.slots, among);
        if owed == 0 {
            return Err(CancelRefusal::NothingWaiting);
        }
        Ok(owed)
    }

    /// Puts another plan in force. Messages that arrived before go where the plan in force then sent them, and a plan
    /// that is equal to the one in force is booked too.
    ///
    /// # Errors
    ///
    /// `ChannelsDiffer` where its channels have other names or are in another order, then `DestinationInUse` of the first
    /// destination to which messages are still to be delivered and which the plan lacks, names otherwise or gives other
    /// attempts, then `TooMany` where a thousand plans were deployed, then `Full` where there is no room for one more entry,
    /// and then `NoMemory` where a growth was refused. A refusal leaves the book as it was, and drops the plan.
    pub fn deploy(&mut self, plan: Arc<Plan>) -> Result<(), DeployRefusal>
        ensures does { Does (deploy (arc_value plan)) self.old self.new result }
        ensures memory { MemoryIsLast (deploy (arc_value plan)) self.old result }
    {
        if let Some(refusal) = self.deploy_answer(&plan) {
            return Err(refusal);
        }
        if !self.log.room(0) {
            return Err(DeployRefusal::Full);
        }
        plan.rules();
        let shared = Arc::try_clone(&plan)?;
        self.log.reserve(self.flights as usize + 1)?;
        // All growths are made: nothing below is refused.
        self.log.deploy(plan, shared);
        Ok(())
    }

    /// Forgets the messages numbered below `before`, with the filtered arrivals that were received before message
    /// `before` was, and folds all entries: the history then goes on from what remains, and the book has room for as
    /// many entries again. Indices and numbers go on counting, and the statistics keep what was forgotten. With a
    /// message its control id (MSH-10) is forgotten: where its sender repeats it, it is judged as a new message.
    ///
    /// # Errors
    ///
    /// `NoSuchMessage` where fewer messages were accepted, then `StillLive` of the first of them that is still to be
    /// delivered, then `TooMany` where a thousand prunings were made, and then `NoMemory` where a growth was refused. A
    /// refusal leaves the book as it was.
    pub fn prune(&mut self, before: u32) -> Result<(), PruneRefusal>
        ensures answer { OnOk result (prune_answer self.old before ≡ None) }
        ensures folded { OnOk result (self.new ≡ pruned before self.old) }

        // Each slot of a forgotten message was delivered or had failed.
        ensures settled { OnOk result ((n d : ℕ) → n < before
            → IfSome (slot self.old n d) (λ state. is_live state ≡ false)) }
        ensures refused { IfErr result (λ e.
            (prune_answer self.old before ≡ Some e)
            ⊎ (prune_answer self.old before ≡ None) × (e ≡ PruneRefusal.NoMemory)) }
        ensures err { OnErr result (self.new ≡ self.old) }
    {
        if let Some(refusal) = prune_refusal(&self.log, &mut self.rows, before) {
            return Err(refusal);
        }
        let floor = self.log.arrival_place(before);
        let first = first_kept(&self.log, &self.rows);
        let remembered = recall_since(self.alloc, &self.log, &self.rows, floor)?;
        let forgotten = unremembered(&self.counts, &remembered);
        self.log.fold(self.flights as usize, forgotten, remembered)?;
        // All growths are made: nothing below is refused. Where the index of keys is refused a smaller block, it keeps its own.
        forget_rows(&mut self.rows, first, before);
        self.keys.drop_before(floor);
        Ok(())
    }

    /// Why a plan isn't deployed, before room and memory are looked at.
    fn deploy_answer(&self, plan: &Plan) -> Option<DeployRefusal>
        ensures { result ≡ deploy_answer self.now plan.now }
    {
        if !same_channels(self.log.plan(), plan) {
            return Some(DeployRefusal::ChannelsDiffer);
        }
        match self.first_lost(plan) {
            Some(d) => Some(DeployRefusal::DestinationInUse(d)),
            None if self.log.deployments() < DEPLOYMENTS_MAX => None,
            None => Some(DeployRefusal::TooMany),
        }
    }

    /// Whether messages are still to be delivered to destination `d`, which a plan doesn't keep as it is.
    fn is_lost(&self, plan: &Plan, d: u32) -> bool
        ensures { result ≡ is_lost self.now plan.now d }
    {
        self.queue_len(d) > 0 && !keeps_destination(self.log.plan(), plan, d)
    }

    /// The first destination that would be lost with a plan.
    fn first_lost(&self, plan: &Plan) -> Option<u32>
        ensures { result ≡ first_lost self.now plan.now }
    {
        for d in 0..QUEUES {
            if self.is_lost(plan, d) {
                return Some(d);
            }
        }
        None
    }
}
