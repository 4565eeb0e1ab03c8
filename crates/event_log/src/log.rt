//! The history, with room for more of it.

ghost use Rattle.std.specs.Prelude.{◌≡◌, ◌<◌, ◌≤◌, ◌+◌, ◌*◌, ◌==◌, None, OnOk, OnErr, length, map, not, option_copied};
ghost use Rattle.std.specs.Arc.{arc_value};
ghost use Rattle.std.specs.List.Sorted.{IsStrictlyIncreasing};
ghost use Rattle.event_log.specs.Answers.{brings_at};
ghost use Rattle.event_log.specs.Deployment.{deployments};
ghost use Rattle.event_log.specs.Folding.{arrival_place, closing};
ghost use Rattle.event_log.specs.History.{begun, deployed_by, entry_at, followed_by, message_count, next_place, plan_in_force};
ghost use Rattle.event_log.specs.inner.History.{snapshot_after};
ghost use Rattle.event_log.specs.Room.{is_over_limit, owed, slot_owed};

use crate::entry::{DeployedPlan, Entry, index_of_arrival};
use crate::opening::{Remembered, Snapshot};
use dest_queue::{ATTEMPTS_MAX, SlotState};
use fixed_numbers::{DEPLOYMENTS_MAX, EVENTS_MAX, PRUNINGS_MAX};
use plan_text::Plan;
use stat_count::Counts;
use std::alloc::{AllocError, Global};
use std::marker::Model;
use std::sync::Arc;

/// The history: its opening, the plan in force where another was deployed since, how many were deployed and how many messages
/// accepted in all; the entries since the opening in their order, how many more are owed to the slots of its messages, and the
/// room that was made for more. The entries and those owed are together never more than the history may hold.
#[derive(Drop)]
pub struct Log {
    opening: Snapshot,
    deployed: Option<Arc<Plan>>,
    deployments: u32,
    messages: u32,
    entries: Vec<Entry>,
    owed: u32,
}

impl Model for Log {
    ghost use Rattle.std.specs.Prelude.{◌≡◌, ◌≤◌, ◌+◌, ◌-◌, length, vec_len, vec_capacity};
    ghost use Rattle.std.specs.Arc.{arc_value};
    ghost use Rattle.std.specs.Option.{option_map_or};
    ghost use Rattle.event_log.specs.Deployment.{deployments as deployments_of};
    ghost use Rattle.event_log.specs.inner.Kept.{Kept};
    ghost use Rattle.event_log.specs.inner.Coding.{kept_code};
    ghost use Rattle.event_log.specs.History.{of_snapshot, message_count, plan_in_force};
    ghost use Rattle.event_log.specs.Room.{owed as owed_by};

    ghost Value = { Kept };

    ghost coded = { kept_code };

    ghost view = { λ l. record { history = of_snapshot l.opening l.entries.items; room = vec_capacity l.entries - vec_len l.entries } };

    ghost invariant = { λ l. record {
      plan_is : option_map_or (λ p. arc_value p) l.deployed l.opening.plan ≡ plan_in_force (of_snapshot l.opening l.entries.items);
      deployments_are : l.deployments ≡ deployments_of (of_snapshot l.opening l.entries.items);
      messages_are : l.messages ≡ message_count (of_snapshot l.opening l.entries.items);
      owed_is : l.owed ≡ owed_by (of_snapshot l.opening l.entries.items);
      within : length l.entries.items + l.owed ≤ l.opening.events_max;
      few : l.opening.events_max ≤ 1000000;
      few_places : l.opening.places ≤ 1000000000;
      few_messages : l.opening.messages ≤ 1000000000;
    } };
}

/// The entries that may still follow from a slot, if it may have `max` attempts.
pub fn slot_owed(max: u32, state: SlotState) -> u32
    requires { max ≤ ATTEMPTS_MAX }
    ensures { result ≡ slot_owed max state }
{
    match state {
        SlotState::Waiting { attempts, .. } => 2 * max.saturating_sub(attempts) + 1,
        SlotState::InFlight { attempt } => 2 * max.saturating_sub(attempt) + 2,
        SlotState::Delivered | SlotState::Failed(_) => 0,
    }
}

impl Log {
    /// The history of a book of this plan that may hold `events_max` entries, with none booked yet.
    pub fn new(alloc: Global, plan: Arc<Plan>, events_max: u32) -> Log
        requires { events_max ≤ EVENTS_MAX }
        ensures { result.history ≡ snapshot_after (arc_value plan) events_max }
    {
        Log {
            opening: Snapshot::blank(alloc, plan, events_max),
            deployed: None,
            deployments: 0,
            messages: 0,
            entries: Vec::new(alloc),
            owed: 0,
        }
    }

    /// The history that goes on from an opening, with none booked since. `still_owed` is what the slots of its messages owe.
    pub fn resume(alloc: Global, opening: Snapshot, still_owed: u32) -> Log
        requires owed { still_owed ≡ owed (begun opening) }
        requires within { still_owed ≤ opening.events_max }
        requires few { opening.events_max ≤ EVENTS_MAX }
        requires few_places { opening.places ≤ 1000000000 }
        requires few_messages { opening.messages ≤ 1000000000 }
        ensures { result.history ≡ begun opening }
    {
        Log {
            deployed: None,
            deployments: opening.deployments,
            messages: opening.messages,
            entries: Vec::new(alloc),
            owed: still_owed,
            opening,
        }
    }

    /// What the history goes on from.
    pub fn opening(&self) -> &Snapshot
        ensures { result.now ≡ self.now.history.opening }
    {
        &self.opening
    }

    /// The plan in force.
    pub fn plan(&self) -> &Arc<Plan>
        ensures { arc_value result.now ≡ plan_in_force self.now.history }
    {
        self.deployed.as_ref().unwrap_or(&self.opening.plan)
    }

    /// How many plans were deployed.
    pub fn deployments(&self) -> u32
        ensures { result ≡ deployments self.now.history }
    {
        self.deployments
    }

    /// How many prunings were made.
    pub fn prunings(&self) -> u32
        ensures { result ≡ self.now.history.opening.prunings }
    {
        self.opening.prunings
    }

    /// The most entries that the history may hold, those owed included.
    pub fn events_max(&self) -> u32
        ensures value { result ≡ self.now.history.opening.events_max }
        ensures few { result ≤ EVENTS_MAX }
    {
        self.opening.events_max
    }

    /// How many entries were booked in all: the index of the next.
    pub fn len(&self) -> usize
        ensures { result ≡ next_place self.now.history }
    {
        self.opening.places + self.entries.len()
    }

    /// How many entries were folded: the index of the first that is held.
    pub fn first_place(&self) -> usize
        ensures value { result ≡ self.now.history.opening.places }
        ensures within { result ≤ next_place self.now.history }
    {
        self.opening.places
    }

    /// How many messages were accepted in all: the number of the next.
    pub fn message_count(&self) -> u32
        ensures { result ≡ message_count self.now.history }
    {
        self.messages
    }

    /// Whether no entry is held.
    pub fn is_empty(&self) -> bool
        ensures { result ≡ (length self.now.history.entries == 0) }
    {
        self.entries.is_empty()
    }

    /// The entry at this index, counted from 0; nothing where it was folded.
    pub fn entry(&self, place: usize) -> Option<&Entry>
        ensures { option_copied result ≡ entry_at self.now.history place }
    {
        if place < self.opening.places {
            return None;
        }
        self.entries.get(place - self.opening.places)
    }

    /// What is remembered of the entries that were folded, in order of index.
    pub fn remembered(&self) -> &[Remembered]
        ensures { result.now ≡ self.now.history.opening.remembered }
    {
        self.opening.remembered()
    }

    /// The index of the arrival of the message of this number, or of the next entry where the message is still to come;
    /// 0 where it is forgotten, as all that arrived before it is too.
    pub fn arrival_place(&self, number: u32) -> usize
        ensures { result ≡ arrival_place self.now.history number }
    {
        if let Some(place) = self.opening.arrival_place(number) {
            return place;
        }
        if let Some(k) = index_of_arrival(&self.entries, number) {
            return self.first_place() + k;
        }
        let next = self.len();
        if number < self.message_count() {
            0
        } else {
            next
        }
    }

    /// Whether the arrival at this index has these bytes, as an entry or a remembered arrival says.
    pub fn brings(&self, place: usize, raw: &[u8]) -> bool
        ensures { result ≡ brings_at self.now.history raw.now place }
    {
        self.opening.brought(place, raw) || self.entry(place).is_some_and(|entry| entry.brings(raw))
    }

    /// The entries that may still follow from the slots of all messages.
    pub fn owed(&self) -> u32
        ensures value { result ≡ owed self.now.history }
        ensures within { length self.now.history.entries + result ≤ self.now.history.opening.events_max }
    {
        self.owed
    }

    /// Whether there is room for one more entry, whose own slots owe `own` entries.
    pub fn room(&self, own: u32) -> bool
        ensures { result ≡ not (is_over_limit self.now.history own) }
    {
        let entries = self.entries.len() as u64;
        entries + u64::from(self.owed) + 1 + u64::from(own) <= u64::from(self.opening.events_max)
    }

    /// Makes room for `additional` more entries, so that as many pushes need no memory. The history stays.
    ///
    /// # Errors
    ///
    /// Where memory is refused, which it is only where there was less room than that.
    pub fn reserve(&mut self, additional: usize) -> Result<(), AllocError>
        ensures history { self.new.history ≡ self.old.history }
        ensures ok { OnOk result (additional ≤ self.new.room) }
        ensures kept { self.old.room ≤ self.new.room }
        ensures missing { OnErr result (self.old.room < additional) }
    {
        self.entries.reserve(additional)
    }

    /// Appends an entry that deploys no plan into the room that was made for it. `still_owed` is what the longer history owes.
    pub fn push(&mut self, entry: Entry, still_owed: u32)
        requires reserved { 0 < self.old.room }
        requires deploys_none { deployed_by entry ≡ None }
        requires owed { still_owed ≡ owed (followed_by self.old.history entry) }
        requires within { length self.old.history.entries + 1 + still_owed ≤ self.old.history.opening.events_max }
        ensures history { self.new.history ≡ followed_by self.old.history entry }
        ensures room { self.old.room ≤ self.new.room + 1 }
    {
        self.messages += u32::from(entry.accepts());
        self.entries.push(entry).unwrap();
        self.owed = still_owed;
    }

    /// Appends the deployment of a plan into the room that was made for it. `shared` is the same plan, for the entry. Where
    /// nothing is owed to a destination that the plan changes, as much is owed as before.
    pub fn deploy(&mut self, plan: Arc<Plan>, shared: Arc<Plan>)
        requires reserved { 0 < self.old.room }
        requires same { arc_value shared ≡ arc_value plan }
        requires few { deployments self.old.history < DEPLOYMENTS_MAX }
        requires owed { owed (followed_by self.old.history (Entry.Deploy (arc_value plan))) ≡ owed self.old.history }
        requires within { length self.old.history.entries + 1 + owed self.old.history ≤ self.old.history.opening.events_max }
        ensures history { self.new.history ≡ followed_by self.old.history (Entry.Deploy (arc_value plan)) }
        ensures room { self.old.room ≤ self.new.room + 1 }
    {
        let plan_entry = Entry::Deploy {
            plan: DeployedPlan::new(shared),
        };
        self.entries.push(plan_entry).unwrap();
        self.deployed = Some(plan);
        self.deployments += 1;
    }

    /// Folds all entries: the history goes on from an opening with what is counted of them and not remembered, and
    /// what is remembered of them, in order of index. Room is made for `room` more entries, and the memory of those
    /// that were held is released. As much has to be owed as before.
    ///
    /// # Errors
    ///
    /// Where the memory for that room is refused. Nothing is folded then.
    pub fn fold(
        &mut self,
        room: usize,
        forgotten: Counts,
        remembered: Vec<Remembered>,
    ) -> Result<(), AllocError>
        requires places { IsStrictlyIncreasing (map (λ r. r.place) remembered.items) }
        requires owed { owed (begun (closing self.old.history forgotten remembered.items)) ≡ owed self.old.history }
        requires few_prunings { self.old.history.opening.prunings < PRUNINGS_MAX }
        requires few_places { self.old.history.opening.places ≤ self.old.history.opening.prunings * EVENTS_MAX }
        requires few_messages { self.old.history.opening.messages ≤ self.old.history.opening.places }
        ensures history { OnOk result (self.new.history ≡ begun (closing self.old.history forgotten remembered.items)) }
        ensures room { OnOk result (room ≤ self.new.room) }
        ensures err { OnErr result (self.new ≡ self.old) }
    {
        let entries = Vec::with_capacity(*self.entries.allocator(), room)?;
        self.opening.advance(
            self.deployed.take(),
            self.entries.len(),
            self.messages,
            self.deployments,
            forgotten,
            remembered,
        );
        self.entries = entries;
        Ok(())
    }
}
