//! The plain engine itself.

ghost use Rattle.std.specs.Prelude.{◌≡◌, ◌≤◌, Ok, Err, IfOk, IfSome, OnOk, OnErr, IsTrue, Some, length};
ghost use Rattle.std.specs.Arc.{arc_value};
ghost use Rattle.judge_core.specs.Judging.{is_bookable};
ghost use Rattle.event_log.specs.Event.{Does, arrive, cancel, deploy, settle, take};
ghost use Rattle.event_log.specs.inner.Event.{result_map_err};
ghost use Rattle.event_log.specs.History.{followed_by, plan_in_force, queue, slot};
ghost use Rattle.event_log.specs.inner.History.{snapshot_after};
ghost use Rattle.event_log.specs.Legal.{MayFollow};
ghost use Rattle.sequential_book.specs.inner.Reading.{IsJudgeable, arrive_refusal, settled};

mod answers;
mod slots;

use crate::entries::in_force;
use crate::refusal::{NotBooked, NotSettled};
use dest_queue::{KeptState, Outcome, SlotState};
use event_log::{
    CancelRefusal, DeployRefusal, DeployedPlan, EVENTS_MAX, Entry, TakeRefusal, Ticket, Told,
};
use hl7_head::Moment;
use judge_core::Judged;
use plan_text::Plan;
use std::alloc::{AllocError, Global};
use std::marker::Model;
use std::sync::Arc;

/// The sequential engine over a plain list of entries.
#[derive(Drop)]
pub struct SequentialBook {
    alloc: Global,
    plan: Arc<Plan>,
    events_max: u32,
    entries: Vec<Entry>,
}

impl Model for SequentialBook {
    ghost use Rattle.std.specs.Arc.{arc_value};
    ghost use Rattle.event_log.specs.History.{History};
    ghost use Rattle.event_log.specs.inner.History.{history_of};
    ghost use Rattle.event_log.specs.inner.Coding.{history_code};
    ghost use Rattle.sequential_book.specs.inner.Reading.{IsPlain};

    ghost Value = { History };

    ghost coded = { history_code };

    ghost view = { λ b. history_of (arc_value b.plan) b.events_max b.entries.items };

    ghost invariant = { λ b. IsPlain (history_of (arc_value b.plan) b.events_max b.entries.items) };
}

impl SequentialBook {
    /// An engine of this plan that may book `events_max` entries, and has booked none yet.
    pub fn new(alloc: Global, plan: Arc<Plan>, events_max: u32) -> SequentialBook
        requires { events_max ≤ EVENTS_MAX }
        ensures { result ≡ snapshot_after (arc_value plan) events_max }
    {
        plan.rules();
        SequentialBook {
            alloc,
            plan,
            events_max,
            entries: Vec::new(alloc),
        }
    }

    /// The plan in force.
    pub fn plan(&self) -> &Arc<Plan>
        ensures { arc_value result.now ≡ plan_in_force self.now }
    {
        in_force(&self.plan, &self.entries)
    }

    /// All that was booked, in its order.
    pub fn entries(&self) -> &[Entry]
        ensures { result.now ≡ self.now.entries }
    {
        &self.entries
    }

    /// The state of a message at destination d, if the message names d.
    ///
    /// # Errors
    ///
    /// Where memory is refused.
    pub fn status(&self, number: u32, d: u32) -> Result<Option<SlotState>, AllocError>
        ensures { IfOk result (λ slot_at. slot_at ≡ slot self.now number d) }
    {
        self.slot(number, d)
    }

    /// How many messages are still to be delivered to destination d.
    ///
    /// # Errors
    ///
    /// Where memory is refused.
    pub fn queue_len(&self, d: u32) -> Result<usize, AllocError>
        ensures { IfOk result (λ count. count ≡ length (queue self.now d)) }
    {
        Ok(self.queue(d)?.len())
    }

    /// Books a message that arrived over connection `conn`, and returns its answer.
    ///
    /// # Errors
    ///
    /// `Full` where there is no room for it and its deliveries, and `NoMemory` where memory was refused. Nothing changes
    /// then.
    pub fn arrive(&mut self, conn: u32, judged: &Judged) -> Result<Told, NotBooked>
        requires bookable { IsTrue (is_bookable judged.now.raw) }
        requires same_plan { judged.now.plan ≡ plan_in_force self.old }
        ensures { Does (arrive conn judged.now.channel judged.now.raw)
            self.old self.new (result_map_err arrive_refusal result) }
    {
        self.rules();
        let told = self.answer(judged)?;
        if self.is_full(judged, told)? {
            return Err(NotBooked::Full);
        }
        let raw = judged.raw().share()?;
        self.book(Entry::Arrival {
            conn,
            channel: judged.channel(),
            raw,
            told,
        })?;
        Ok(told)
    }

    /// Takes the message at the front of queue d: the attempt that begins has to be settled.
    ///
    /// # Errors
    ///
    /// `Idle` where the queue is empty, `InFlightNow` where the front is under way, `NotDue` where it waits for a later
    /// moment, and `NoMemory` where memory was refused. Nothing changes then.
    pub fn take(&mut self, d: u32, now: Moment) -> Result<Ticket, TakeRefusal>
        ensures { Does (take d now) self.old self.new result }
    {
        let ticket = self.take_answer(d, now)??;
        self.book(Entry::Take { ticket, now })?;
        Ok(ticket)
    }

    /// Settles an attempt with its outcome, and returns the state of the slot afterwards.
    ///
    /// # Errors
    ///
    /// `Refused` where that very attempt is not under way, and `NoMemory` where memory was refused. Nothing changes then.
    pub fn settle(
        &mut self,
        ticket: &Ticket,
        outcome: Outcome,
        now: Moment,
    ) -> Result<SlotState, NotSettled>
        ensures does { IfSome (settled result)
            (λ said. Does (settle ticket.now outcome now) self.old self.new said) }
        ensures no_memory { OnErr result (self.new ≡ self.old) }
    {
        let state = self.settle_answer(ticket, outcome, now)??;
        self.book(Entry::Settle {
            ticket: *ticket,
            outcome,
            now,
            state: KeptState::new(state),
        })?;
        Ok(state)
    }

    /// Cancels a message wherever it waits, and answers these destinations as a mask: bit d is set for destination d.
    ///
    /// # Errors
    ///
    /// `NoSuchMessage`, `NothingWaiting` where the message waits nowhere, and `NoMemory` where memory was refused.
    /// Nothing changes then.
    pub fn cancel(&mut self, number: u32) -> Result<u32, CancelRefusal>
        ensures { Does (cancel number 4294967295) self.old self.new result }
    {
        self.cancel_among(number, u32::MAX)
    }

    /// Cancels a message where it waits at one of the destinations of the mask `among`, which has bit d for destination d,
    /// and answers as a mask where it did.
    ///
    /// # Errors
    ///
    /// `NoSuchMessage`, `NothingWaiting` where the message waits at none of these destinations, and `NoMemory` where memory
    /// was refused. Nothing changes then.
    pub fn cancel_among(&mut self, number: u32, among: u32) -> Result<u32, CancelRefusal>
        ensures { Does (cancel number among) self.old self.new result }
    {
        let mask = self.cancel_answer(number, among)??;
        self.book(Entry::Cancel {
            number,
            among,
            mask,
        })?;
        Ok(mask)
    }

    /// Puts another plan in force.
    ///
    /// # Errors
    ///
    /// `ChannelsDiffer`, `DestinationInUse`, `TooMany`, `Full` where there is no room for one more entry, and `NoMemory`
    /// where memory was refused. Nothing changes then.
    pub fn deploy(&mut self, plan: Arc<Plan>) -> Result<(), DeployRefusal>
        ensures { Does (deploy (arc_value plan)) self.old self.new result }
    {
        self.rules();
        if let Some(refusal) = self.deploy_answer(&plan)? {
            return Err(refusal);
        }
        if self.is_over_limit(0)? {
            return Err(DeployRefusal::Full);
        }
        plan.rules();
        self.book(Entry::Deploy {
            plan: DeployedPlan::new(plan),
        })?;
        Ok(())
    }

    /// Appends an entry that may follow.
    fn book(&mut self, entry: Entry) -> Result<(), AllocError>
        requires may_follow { MayFollow self.old entry }
        requires judgeable { IsJudgeable (length self.old.opening.plan.channels) entry }
        ensures ok { OnOk result (self.new ≡ followed_by self.old entry) }
        ensures err { OnErr result (self.new ≡ self.old) }
    {
        self.entries.push(entry)?;
        Ok(())
    }
}
