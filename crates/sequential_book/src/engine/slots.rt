//! What the plain engine reads of messages, their slots and the queues.

ghost use Rattle.std.specs.Prelude.{◌≡◌, ◌<◌, ◌≤◌, ℕ, [], true, is_some, IfOk};
ghost use Rattle.std.specs.Option.{option_map_or};
ghost use Rattle.event_log.specs.Deployment.{deployments};
ghost use Rattle.event_log.specs.History.{deliveries, is_queued, message_at, message_count, plan_in_force, queue, slot, state};
ghost use Rattle.event_log.specs.Answers.{attempts_max, mask_where, waits, waits_among};
ghost use Rattle.event_log.specs.Room.{message_total, owed, slot_owed};
ghost use Rattle.sequential_book.specs.inner.Reading.{IsPlain};

use crate::engine::SequentialBook;
use crate::entries::{acceptances, deliveries, deployments, has_bit, names, state};
use dest_queue::SlotState;
use event_log::{EVENTS_MAX, attempts_max, slot_owed};
use judge_core::Deliveries;
use std::alloc::AllocError;

impl SequentialBook {
    /// What holds of every plain engine.
    pub(crate) fn rules(&self)
        ensures { IsPlain self.now }
    {
        let _ = &self.entries;
    }

    /// How many messages were accepted: the number of the next.
    pub(crate) fn message_count(&self) -> u32
        ensures value { result ≡ message_count self.now }
        ensures bound { result ≤ EVENTS_MAX }
        ensures there { (n : ℕ) → n < result → is_some (message_at self.now n) ≡ true }
    {
        acceptances(&self.entries) as u32
    }

    /// How many plans were deployed.
    pub(crate) fn deployments(&self) -> usize
        ensures { result ≡ deployments self.now }
    {
        deployments(&self.entries)
    }

    /// Where a message goes; nowhere where there is no such message.
    fn deliveries(&self, number: u32) -> Result<Option<Deliveries>, AllocError>
        ensures { IfOk result (λ found. option_map_or (λ deliveries. deliveries) found [] ≡ deliveries self.now number) }
    {
        deliveries(self.alloc, &self.plan, &self.entries, number)
    }

    /// The state of a message at d.
    fn state(&self, number: u32, d: u32) -> SlotState
        ensures { result ≡ state self.now number d }
    {
        state(&self.entries, number, d)
    }

    /// The slot of a message at d: its state there, if it names d.
    pub(crate) fn slot(&self, number: u32, d: u32) -> Result<Option<SlotState>, AllocError>
        ensures { IfOk result (λ slot_at. slot_at ≡ slot self.now number d) }
    {
        match self.deliveries(number)? {
            Some(deliveries) if names(deliveries.as_slice(), d) => Ok(Some(self.state(number, d))),
            _ => Ok(None),
        }
    }

    /// Whether a message is still to be delivered to d.
    fn is_queued(&self, d: u32, number: u32) -> Result<bool, AllocError>
        ensures { IfOk result (λ queued. queued ≡ is_queued self.now d number) }
    {
        Ok(self.slot(number, d)?.is_some_and(|state| state.is_live()))
    }

    /// The messages still to be delivered to d, in order of acceptance.
    pub(crate) fn queue(&self, d: u32) -> Result<Vec<u32>, AllocError>
        ensures { IfOk result (λ numbers. numbers.items ≡ queue self.now d) }
    {
        let mut queue = Vec::new(self.alloc);
        for number in 0..self.message_count() {
            if self.is_queued(d, number)? {
                queue.push(number)?;
            }
        }
        Ok(queue)
    }

    /// Whether a message waits at d.
    fn waits(&self, number: u32, d: u32) -> Result<bool, AllocError>
        ensures { IfOk result (λ waiting. waiting ≡ waits self.now number d) }
    {
        Ok(
            self.slot(number, d)?
                .is_some_and(|state| state.is_waiting()),
        )
    }

    /// Whether a message waits at d, and the mask `among` names d.
    fn waits_among(&self, number: u32, among: u32, d: u32) -> Result<bool, AllocError>
        ensures { IfOk result (λ waiting. waiting ≡ waits_among self.now number among d) }
    {
        let waits = self.waits(number, d)?;
        Ok(has_bit(among, d) && waits)
    }

    /// The destinations of the mask `among` where a message waits, as a mask.
    pub(crate) fn waiting_mask(&self, number: u32, among: u32) -> Result<u32, AllocError>
        ensures { IfOk result (λ mask. mask ≡ mask_where (waits_among self.now number among)) }
    {
        let mut mask = 0;
        for d in 0..u32::BITS {
            if self.waits_among(number, among, d)? {
                mask |= 1 << d;
            }
        }
        Ok(mask)
    }

    /// What the slot of a message at d owes.
    fn slot_owes(&self, number: u32, d: u32) -> Result<u32, AllocError>
        ensures value { IfOk result (λ owes.
            owes ≡ option_map_or (slot_owed (attempts_max (plan_in_force self.now) d)) (slot self.now number d) 0) }
        ensures bound { IfOk result (λ owes. owes ≤ 202) }
    {
        match self.slot(number, d)? {
            Some(state) => Ok(slot_owed(attempts_max(self.plan(), d), state)),
            None => Ok(0),
        }
    }

    /// What the slots of a message owe.
    fn message_owes(&self, number: u32) -> Result<u64, AllocError>
        ensures value { IfOk result (λ owes. owes
            ≡ message_total (λ d. slot_owed (attempts_max (plan_in_force self.now) d)) (slot self.now number)) }
        ensures bound { IfOk result (λ owes. owes ≤ 6464) }
    {
        let mut owes = 0;
        for d in 0..u32::BITS {
            owes += u64::from(self.slot_owes(number, d)?);
        }
        Ok(owes)
    }

    /// The entries that may still follow from all slots.
    pub(crate) fn owed(&self) -> Result<u64, AllocError>
        ensures { IfOk result (λ owes. owes ≡ owed self.now) }
    {
        let mut owed = 0;
        for number in 0..self.message_count() {
            owed += self.message_owes(number)?;
        }
        Ok(owed)
    }
}
