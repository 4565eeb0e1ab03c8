//! What a history starts with, or goes on from.

ghost use Rattle.std.specs.Prelude.{◌≡◌, ◌≢◌, ◌+◌, ◌<◌, ◌≤◌, [], All, IfNone, IfSome, find, length, map};
ghost use Rattle.std.specs.Arc.{arc_value};
ghost use Rattle.std.specs.List.{HoldsAt, list_any};
ghost use Rattle.std.specs.List.Sorted.{IsStrictlyIncreasing};
ghost use Rattle.std.specs.Option.{option_map, option_map_or};
ghost use Rattle.event_log.specs.Answers.{brought_before};
ghost use Rattle.event_log.specs.History.{is_numbered};
ghost use Rattle.event_log.specs.inner.History.{blank};

use crate::entry::Told;
use dest_queue::Slots;
use judge_core::{Deliveries, Text};
use plan_text::Plan;
use stat_count::Counts;
use std::alloc::Global;
use std::marker::Model;
use std::sync::Arc;

/// An arrival that is remembered of entries that were folded: its index, its channel and bytes, its answer, where it
/// goes, and the states of its slots there. One that was filtered has no deliveries.
#[derive(Drop)]
pub struct Remembered {
    place: usize,
    channel: u32,
    raw: Text,
    told: Told,
    deliveries: Option<Deliveries>,
    slots: Slots,
}

impl Model for Remembered {
    ghost use Rattle.std.specs.Prelude.{[]};
    ghost use Rattle.std.specs.Option.{option_map_or};
    ghost use Rattle.event_log.specs.inner.Coding.{remembered_code};
    ghost use Rattle.event_log.specs.History.{Remembered as RememberedArrival};

    ghost Value = { RememberedArrival };

    ghost coded = { remembered_code };

    ghost view = { λ r. record {
      place = r.place;
      channel = r.channel;
      raw = r.raw;
      told = r.told;
      deliveries = option_map_or (λ ds. ds) r.deliveries [];
      slots = r.slots;
    } };
}

impl Remembered {
    /// What is remembered of an arrival with this index: the channel and the bytes received, its answer,
    /// where it goes, and the states of its slots there.
    pub fn new(
        place: usize,
        channel: u32,
        raw: Text,
        told: Told,
        deliveries: Option<Deliveries>,
        slots: Slots,
    ) -> Remembered
        ensures { result ≡ record {
          place = place;
          channel = channel;
          raw = raw;
          told = told;
          deliveries = option_map_or (λ ds. ds) deliveries [];
          slots = slots;
        } }
    {
        Remembered {
            place,
            channel,
            raw,
            told,
            deliveries,
            slots,
        }
    }

    /// The index of its entry.
    pub fn place(&self) -> usize
        ensures { result ≡ self.now.place }
    {
        self.place
    }

    /// The channel on which it arrived.
    pub fn channel(&self) -> u32
        ensures { result ≡ self.now.channel }
    {
        self.channel
    }

    /// The bytes received.
    pub fn raw(&self) -> &Text
        ensures { result.now ≡ self.now.raw }
    {
        &self.raw
    }

    /// Its answer.
    pub fn told(&self) -> Told
        ensures { result ≡ self.now.told }
    {
        self.told
    }

    /// Where it goes, in the order of the routes; nothing for one that was filtered.
    pub fn deliveries(&self) -> Option<&Deliveries>
        ensures { option_map_or (λ ds. ds.now) result [] ≡ self.now.deliveries }
    {
        self.deliveries.as_ref()
    }

    /// The states of its slots at the destinations that it names.
    pub fn slots(&self) -> &Slots
        ensures { result.now ≡ self.now.slots }
    {
        &self.slots
    }

    /// Whether it had this index and these bytes.
    fn brought(&self, place: usize, raw: &[u8]) -> bool
        ensures { result ≡ brought_before place raw.now self.now }
    {
        self.place == place && raw == self.raw.as_slice()
    }
}

/// What a history starts with, or goes on from: the plan in force there and the bound of its entries; how many entries were
/// folded, messages accepted, plans deployed and prunings made before it; what is counted of what was forgotten, and what is
/// remembered, in order of index.
#[derive(Drop)]
pub struct Snapshot {
    pub(crate) plan: Arc<Plan>,
    pub(crate) events_max: u32,
    pub(crate) places: usize,
    pub(crate) messages: u32,
    pub(crate) deployments: u32,
    pub(crate) prunings: u32,
    forgotten: Counts,
    remembered: Vec<Remembered>,
}

impl Model for Snapshot {
    ghost use Rattle.std.specs.Prelude.{map};
    ghost use Rattle.std.specs.Arc.{arc_value};
    ghost use Rattle.std.specs.List.Sorted.{IsStrictlyIncreasing};
    ghost use Rattle.event_log.specs.inner.Coding.{opening_code};
    ghost use Rattle.event_log.specs.History.{Snapshot as HistoryOpening};

    ghost Value = { HistoryOpening };

    ghost coded = { opening_code };

    ghost view = { λ o. record {
      plan = arc_value o.plan;
      events_max = o.events_max;
      places = o.places;
      messages = o.messages;
      deployments = o.deployments;
      prunings = o.prunings;
      forgotten = o.forgotten;
      remembered = o.remembered.items;
    } };

    ghost invariant = { λ o. IsStrictlyIncreasing (map (λ r. r.place) o.remembered.items) };
}

/// Which of the remembered arrivals had this index, by a binary search.
fn index_of(remembered: &[Remembered], place: usize) -> Option<usize>
    requires { IsStrictlyIncreasing (map (λ r. r.place) remembered.now) }
    ensures inside { IfSome result (λ k. k < length remembered.now) }
    ensures found { IfSome result (HoldsAt (λ r. r.place ≡ place) remembered.now) }
    ensures missing { IfNone result (All (λ r. r.place ≢ place) remembered.now) }
{
    remembered.binary_search_by_key(&place, |r| r.place()).ok()
}

impl Snapshot {
    /// The opening of these parts, with what is remembered in order of index.
    pub fn of(
        plan: Arc<Plan>,
        events_max: u32,
        places: usize,
        messages: u32,
        deployments: u32,
        prunings: u32,
        forgotten: Counts,
        remembered: Vec<Remembered>,
    ) -> Snapshot
        requires { IsStrictlyIncreasing (map (λ r. r.place) remembered.items) }
        ensures { result ≡ record {
          plan = arc_value plan;
          events_max = events_max;
          places = places;
          messages = messages;
          deployments = deployments;
          prunings = prunings;
          forgotten = forgotten;
          remembered = remembered.items;
        } }
    {
        Snapshot {
            plan,
            events_max,
            places,
            messages,
            deployments,
            prunings,
            forgotten,
            remembered,
        }
    }

    /// The plan in force.
    pub fn plan(&self) -> &Arc<Plan>
        ensures { arc_value result.now ≡ self.now.plan }
    {
        &self.plan
    }

    /// The most entries that the history may hold, those owed included.
    pub fn events_max(&self) -> u32
        ensures { result ≡ self.now.events_max }
    {
        self.events_max
    }

    /// How many entries were folded.
    pub fn places(&self) -> usize
        ensures { result ≡ self.now.places }
    {
        self.places
    }

    /// How many messages were accepted.
    pub fn messages(&self) -> u32
        ensures { result ≡ self.now.messages }
    {
        self.messages
    }

    /// How many plans were deployed.
    pub fn deployments(&self) -> u32
        ensures { result ≡ self.now.deployments }
    {
        self.deployments
    }

    /// How many prunings were made.
    pub fn prunings(&self) -> u32
        ensures { result ≡ self.now.prunings }
    {
        self.prunings
    }

    /// What is counted of what was forgotten.
    pub fn forgotten(&self) -> &Counts
        ensures { result.now ≡ self.now.forgotten }
    {
        &self.forgotten
    }

    /// The opening of a book of this plan and bound, before which nothing was booked.
    pub(crate) fn blank(alloc: Global, plan: Arc<Plan>, events_max: u32) -> Snapshot
        ensures { result ≡ blank (arc_value plan) events_max }
    {
        Snapshot {
            plan,
            events_max,
            places: 0,
            messages: 0,
            deployments: 0,
            prunings: 0,
            forgotten: Counts::new(),
            remembered: Vec::new(alloc),
        }
    }

    /// Whether a remembered arrival had this index and these bytes.
    pub(crate) fn brought(&self, place: usize, raw: &[u8]) -> bool
        ensures { result ≡ list_any (brought_before place raw.now) self.now.remembered }
    {
        match index_of(&self.remembered, place) {
            Some(k) => self.remembered[k].brought(place, raw),
            None => false,
        }
    }

    /// What is remembered, in order of index.
    pub fn remembered(&self) -> &[Remembered]
        ensures value { result.now ≡ self.now.remembered }
        ensures places { IsStrictlyIncreasing (map (λ r. r.place) result.now) }
    {
        &self.remembered
    }

    /// The index of the arrival of the message of this number, if that is remembered.
    pub(crate) fn arrival_place(&self, number: u32) -> Option<usize>
        ensures { result ≡ option_map (λ r. r.place) (find (λ r. is_numbered number r.told) self.now.remembered) }
    {
        self.remembered
            .iter()
            .find(|r| r.told().is_numbered(number))
            .map(|r| r.place())
    }

    /// Goes on from where this many more entries were folded: the plan that was deployed since, if one was; how many messages
    /// were accepted and plans deployed until there; what is counted and not remembered, and what is remembered.
    pub(crate) fn advance(
        &mut self,
        deployed: Option<Arc<Plan>>,
        entries: usize,
        messages: u32,
        deployments: u32,
        forgotten: Counts,
        remembered: Vec<Remembered>,
    )
        requires places { IsStrictlyIncreasing (map (λ r. r.place) remembered.items) }
        requires few_places { self.old.places + entries ≤ usize.MAX }
        requires few_prunings { self.old.prunings < u32.MAX }
        ensures { self.new ≡ record {
          plan = option_map_or (λ p. arc_value p) deployed self.old.plan;
          events_max = self.old.events_max;
          places = self.old.places + entries;
          messages = messages;
          deployments = deployments;
          prunings = self.old.prunings + 1;
          forgotten = forgotten;
          remembered = remembered.items;
        } }
    {
        if let Some(plan) = deployed {
            self.plan = plan;
        }
        self.places += entries;
        self.messages = messages;
        self.deployments = deployments;
        self.prunings += 1;
        self.forgotten = forgotten;
        self.remembered = remembered;
    }
}
