//! The answers that the plain engine would give.

ghost use Rattle.std.specs.Prelude.{◌≡◌, IfOk, IsTrue, Some};
ghost use Rattle.judge_core.specs.Judging.{is_bookable};
ghost use Rattle.dest_queue.specs.inner.Kept.{IsKeepable};
ghost use Rattle.event_log.specs.History.{plan_in_force};
ghost use Rattle.event_log.specs.Answers.{arrival_answer, cancel_answer, settle_answer, take_answer};
ghost use Rattle.event_log.specs.Deployment.{deploy_answer, first_lost, is_lost};
ghost use Rattle.event_log.specs.Room.{is_over_limit, is_full};

use crate::answers::{arrival_owes, settled};
use crate::engine::SequentialBook;
use crate::entries::{known, told_again};
use dest_queue::{Outcome, SettleRefusal, SlotState};
use event_log::{
    CancelRefusal, DEPLOYMENTS_MAX, DeployRefusal, TakeRefusal, Ticket, Told, attempts_max,
    front_answer, interval, keeps_destination, same_channels, told_first,
};
use hl7_head::Moment;
use judge_core::Judged;
use plan_text::Plan;
use std::alloc::AllocError;

impl SequentialBook {
    /// The answer to a message; its key is looked up before its verdict is used.
    pub(crate) fn answer(&self, judged: &Judged) -> Result<Told, AllocError>
        requires bookable { IsTrue (is_bookable judged.now.raw) }
        requires same_plan { judged.now.plan ≡ plan_in_force self.now }
        ensures { IfOk result (λ told. arrival_answer self.now judged.now.channel judged.now.raw ≡ Some told) }
    {
        match known(self.alloc, &self.plan, &self.entries, judged.key())? {
            Some(place) => Ok(told_again(&self.entries, judged.raw().as_slice(), place)),
            None => Ok(told_first(judged.verdict(), self.message_count())),
        }
    }

    /// Whether one more entry, whose own slots owe `own` entries, exceeds what the history may hold.
    pub(crate) fn is_over_limit(&self, own: u32) -> Result<bool, AllocError>
        ensures { IfOk result (λ past. past ≡ is_over_limit self.now own) }
    {
        let events_max = u64::from(self.events_max);
        let held = self.entries.len() as u64;
        Ok(events_max < held + self.owed()? + 1 + u64::from(own))
    }

    /// Whether there is no room for an arrival with this answer.
    pub(crate) fn is_full(&self, judged: &Judged, told: Told) -> Result<bool, AllocError>
        requires same_plan { judged.now.plan ≡ plan_in_force self.now }
        requires told { arrival_answer self.now judged.now.channel judged.now.raw ≡ Some told }
        ensures { IfOk result (λ full. full ≡ is_full self.now judged.now.channel judged.now.raw) }
    {
        let channel = judged.channel();
        let raw = judged.raw().as_slice();
        self.is_over_limit(arrival_owes(self.plan(), channel, raw, told, judged.verdict()))
    }

    /// The answer to a take at d.
    pub(crate) fn take_answer(
        &self,
        d: u32,
        now: Moment,
    ) -> Result<Result<Ticket, TakeRefusal>, AllocError>
        ensures { IfOk result (λ answer. answer ≡ take_answer self.now d now) }
    {
        self.rules();
        match self.queue(d)?.first() {
            Some(number) => Ok(front_answer(d, now.secs(), *number, self.slot(*number, d)?)),
            None => Ok(Err(TakeRefusal::Idle)),
        }
    }

    /// The answer to a settlement.
    pub(crate) fn settle_answer(
        &self,
        ticket: &Ticket,
        outcome: Outcome,
        now: Moment,
    ) -> Result<Result<SlotState, SettleRefusal>, AllocError>
        ensures value { IfOk result (λ answer. answer ≡ settle_answer self.now ticket.now outcome now) }
        ensures keepable { IfOk result (λ answer. IfOk answer IsKeepable) }
    {
        self.rules();
        let slot = self.slot(ticket.number, ticket.destination)?;
        let max = attempts_max(self.plan(), ticket.destination);
        let interval = interval(self.plan(), ticket.destination);
        Ok(settled(slot, outcome, ticket.attempt, now.secs(), max, interval))
    }

    /// Whether messages are still to be delivered to d, which a plan doesn't keep as it is.
    fn is_lost(&self, plan: &Plan, d: u32) -> Result<bool, AllocError>
        ensures { IfOk result (λ lost. lost ≡ is_lost self.now plan.now d) }
    {
        Ok(self.queue_len(d)? > 0 && !keeps_destination(self.plan(), plan, d))
    }

    /// The first destination that would be lost with a plan.
    fn first_lost(&self, plan: &Plan) -> Result<Option<u32>, AllocError>
        ensures { IfOk result (λ lost. lost ≡ first_lost self.now plan.now) }
    {
        for d in 0..u32::BITS {
            if self.is_lost(plan, d)? {
                return Ok(Some(d));
            }
        }
        Ok(None)
    }

    /// Why a plan isn't deployed, where there is room for one more entry.
    pub(crate) fn deploy_answer(&self, plan: &Plan) -> Result<Option<DeployRefusal>, AllocError>
        ensures { IfOk result (λ answer. answer ≡ deploy_answer self.now plan.now) }
    {
        if !same_channels(self.plan(), plan) {
            return Ok(Some(DeployRefusal::ChannelsDiffer));
        }
        Ok(match self.first_lost(plan)? {
            Some(d) => Some(DeployRefusal::DestinationInUse(d)),
            None if self.deployments() < DEPLOYMENTS_MAX as usize => None,
            None => Some(DeployRefusal::TooMany),
        })
    }

    /// The answer to a cancellation among the destinations of a mask.
    pub(crate) fn cancel_answer(
        &self,
        number: u32,
        among: u32,
    ) -> Result<Result<u32, CancelRefusal>, AllocError>
        ensures { IfOk result (λ answer. answer ≡ cancel_answer self.now number among) }
    {
        if number >= self.message_count() {
            return Ok(Err(CancelRefusal::NoSuchMessage));
        }
        let mask = self.waiting_mask(number, among)?;
        Ok(if mask == 0 {
            Err(CancelRefusal::NothingWaiting)
        } else {
            Ok(mask)
        })
    }
}
