//! The channels of a plan.

ghost use Rattle.std.specs.Prelude.{◌≡◌, ◌≤◌, [], codes, Ok, length, option_map, refl};
ghost use Rattle.toml.specs.Data.{Data, get_member};
ghost use Rattle.toml.specs.View.{view, array_view, table_view};
ghost use Rattle.hl7_filter.specs.inner.View.{view as condition_view};
ghost use Rattle.hl7_transform.specs.inner.View.{steps_view};
ghost use Rattle.plan_text.specs.inner.AtKey.{at_key, key_at, value_at};
ghost use Rattle.er7_tree.specs.Tree.{◌>>=◌ as and_then};
ghost use Rattle.plan_text.specs.inner.Fault.{Gives};
ghost use Rattle.plan_text.specs.Entries.{RouteEntry, ChannelEntry};
ghost use Rattle.plan_text.specs.Keys.{required, table_at, only_keys, each_after, key_path};
ghost use Rattle.plan_text.specs.Channels.{destination_index, leads_to, way_at, route_to, route, routes_at, text_entry_at, entries_at, taken_at, channel_keys, channel};

use crate::channel::{Channel, MessageType, ProcessingId, Route, VersionId};
use crate::destination::Destination;
use crate::fault::{PlanFaultKind, Stop};
use crate::from_toml::conditions::filter_of;
use crate::from_toml::keys::{Key, Keys, fault_at};
use crate::from_toml::kinds::FromText;
use crate::from_toml::members::{Reader, each};
use crate::from_toml::names::new_name;
use crate::from_toml::steps::steps_of;
use crate::literal::Literal;
use fixed_numbers::MEMBERS_MAX;
use hl7_filter::Cond;
use hl7_transform::Step;
use std::alloc::Global;
use std::marker::PhantomData;
use toml::Value;
use toml::value::Array;

fn place_of(destinations: &[Destination], name: &str) -> Option<usize>
    ensures { result ≡ destination_index destinations.now name.now }
{
    destinations.iter().position(|d| d.name() == name)
}

fn leads_to(routes: &[Route], place: u32) -> bool
    ensures { result ≡ leads_to routes.now place }
{
    routes.iter().any(|route| route.to() == place)
}

/// The index of the destination that a route leads to.
fn route_to(destinations: &[Destination], before: &[Route], key: &Key<'_>) -> Result<u32, Stop>
    requires { length destinations.now ≤ 32 }
    ensures { Gives (λ n. n) result (at_key key.now (required (route_to destinations.now before.now))) }
{
    let value = key.required()?;
    let Some(name) = value.as_str() else {
        return Err(key.fault(PlanFaultKind::BadRange));
    };
    let Some(place) = place_of(destinations, name) else {
        return Err(key.fault(PlanFaultKind::UnknownName));
    };
    let place = place as u32;
    if leads_to(before, place) {
        return Err(key.fault(PlanFaultKind::DoubleName));
    }
    Ok(place)
}

/// Which messages go on, and what is done with them.
#[derive(Drop)]
struct Way {
    filter: Option<Cond>,
    steps: Vec<Step>,
}

#[tactic(auto, unfolding(crate::specs::Channels::way_at))]
fn way_of(keys: &Keys<'_>) -> Result<Way, Stop>
    ensures { Gives (λ w. (option_map condition_view w.filter, steps_view w.steps.items)) result
        (way_at keys.now.at.now (table_view keys.now.table.now)) }
{
    let filter = filter_of(&keys.key("filter"))?;
    let steps = steps_of(&keys.key("steps"))?;
    Ok(Way { filter, steps })
}

/// The reader of routes that lead to one of these.
#[derive(Drop)]
struct Routes<'a> {
    destinations: &'a [Destination],
    ghost few: { length destinations.now ≤ 32 },
}

impl Reader for Routes<'_> {
    type Item = Route;

    ghost Said = { RouteEntry };

    ghost said = { λ r. r };

    ghost all_said = { λ rs. rs };

    ghost reading = { λ s. route s.destinations.now };

    ghost none_said = { refl };

    ghost one_more = { λ xs x. refl };

    ghost as_many = { λ xs. refl };

    #[tactic(auto, unfolding(crate::specs::Channels::route))]
    fn read(
        &self,
        alloc: Global,
        before: &[Route],
        at: &str,
        value: &Value,
    ) -> Result<Route, Stop> {
        let keys = Keys::of(alloc, at, value)?;
        keys.only(&["to", "filter", "steps"])?;
        let to = route_to(self.destinations, before, &keys.key("to"))?;
        let way = way_of(&keys)?;
        Ok(Route {
            to,
            filter: way.filter,
            steps: way.steps,
        })
    }
}

/// The routes of a channel, none where the key is left out.
#[tactic(auto, unfolding(crate::specs::Channels::routes_at))]
fn routes_of(key: &Key<'_>, destinations: &[Destination]) -> Result<Vec<Route>, Stop>
    requires { length destinations.now ≤ 32 }
    ensures { Gives (λ v. v.items) result (routes_at destinations.now (key_at key.now) (value_at key.now)) }
{
    let Some(value) = key.value else {
        return Ok(Vec::new(key.alloc));
    };
    let Some(values) = value.as_array() else {
        return Err(key.fault(PlanFaultKind::BadRange));
    };
    let at = key.path()?;
    each(key.alloc, &Routes { destinations }, at.as_str(), values)
}

/// The reader of texts that say such an entry.
#[derive(Drop)]
struct Entries<E: FromText> {
    of: PhantomData<E>,
}

impl<E: FromText> Reader for Entries<E> {
    type Item = E;

    ghost Said = { E };

    ghost said = { λ e. e };

    ghost all_said = { λ es. es };

    ghost reading = { λ s before. text_entry_at E.form };

    ghost none_said = { refl };

    ghost one_more = { λ xs x. refl };

    ghost as_many = { λ xs. refl };

    fn read(&self, alloc: Global, _before: &[E], at: &str, value: &Value) -> Result<E, Stop> {
        let Some(text) = value.as_str() else {
            return Err(fault_at(alloc, PlanFaultKind::BadRange, at));
        };
        match E::from_text(alloc, text)? {
            Some(entry) => Ok(entry),
            None => Err(fault_at(alloc, PlanFaultKind::BadRange, at)),
        }
    }
}

/// The entries of a list of texts, at most 256.
#[tactic(auto, unfolding(crate::specs::Channels::entries_at))]
fn entries_of<E: FromText>(key: &Key<'_>) -> Result<Vec<E>, Stop>
    ensures { Gives (λ v. v.items) result (entries_at E.form (key_at key.now) (value_at key.now)) }
{
    let values = key.list(MEMBERS_MAX)?;
    let at = key.path()?;
    let entries: Entries<E> = Entries { of: PhantomData };
    each(key.alloc, &entries, at.as_str(), values)
}

/// The messages that a channel takes.
#[derive(Drop)]
struct Taken {
    types: Vec<MessageType>,
    processing: Vec<ProcessingId>,
    versions: Vec<VersionId>,
}

#[tactic(auto, unfolding(crate::specs::Channels::taken_at))]
fn taken_of(keys: &Keys<'_>) -> Result<Taken, Stop>
    ensures { Gives (λ t. (t.types.items, (t.processing.items, t.versions.items))) result
        (taken_at keys.now.at.now (table_view keys.now.table.now)) }
{
    let types = entries_of(&keys.key("types"))?;
    let processing = entries_of(&keys.key("processing"))?;
    let versions = entries_of(&keys.key("versions"))?;
    Ok(Taken {
        types,
        processing,
        versions,
    })
}

/// Refuses keys other than those of a channel.
fn only_channel_keys(keys: &Keys<'_>) -> Result<(), Stop>
    ensures { Gives (λ _. tt) result (only_keys channel_keys keys.now.at.now (table_view keys.now.table.now)) }
{
    keys.only(&[
        "name",
        "listen",
        "types",
        "processing",
        "versions",
        "filter",
        "steps",
        "route",
    ])
}

/// The channel of this name and this address, by its other keys.
fn named_channel(
    keys: &Keys<'_>,
    name: Literal,
    listen: Literal,
    destinations: &[Destination],
) -> Result<Channel, Stop>
    requires { length destinations.now ≤ 32 }
    ensures { let at = keys.now.at.now in let t = table_view keys.now.table.now in
        Gives (λ c. c) result (and_then (taken_at at t) λ taken. and_then (way_at at t) λ way.
        and_then (routes_at destinations.now (key_path at (codes "route")) (get_member (codes "route") t)) λ routes.
        Ok (record {
          name = name;
          listen = listen;
          types = taken.0;
          processing = taken.1.0;
          versions = taken.1.1;
          filter = way.0;
          steps = way.1;
          routes = routes;
        })) }
{
    let taken = taken_of(keys)?;
    let way = way_of(keys)?;
    let routes = routes_of(&keys.key("route"), destinations)?;
    Ok(Channel {
        name,
        listen,
        types: taken.types,
        processing: taken.processing,
        versions: taken.versions,
        filter: way.filter,
        steps: way.steps,
        routes,
    })
}

/// The channel of a table that has no key but those of a channel.
#[tactic(auto, unfolding(crate::specs::Channels::channel))]
fn channel_of(
    keys: &Keys<'_>,
    before: &[Channel],
    destinations: &[Destination],
) -> Result<Channel, Stop>
    requires { length destinations.now ≤ 32 }
    ensures { let at = keys.now.at.now in let t = table_view keys.now.table.now in
        (d : Data) → table_at at d ≡ Ok t → only_keys channel_keys at t ≡ Ok tt →
        Gives (λ c. c) result (channel destinations.now before.now at d) }
{
    let name = new_name(&keys.key("name"), before)?;
    let listen = keys.key("listen").text(1, 255)?;
    let name = Literal::new(keys.alloc, name)?;
    let listen = Literal::new(keys.alloc, listen)?;
    named_channel(keys, name, listen, destinations)
}

/// The reader of channels whose routes lead to one of these.
#[derive(Drop)]
struct Channels<'a> {
    destinations: &'a [Destination],
    ghost few: { length destinations.now ≤ 32 },
}

impl Reader for Channels<'_> {
    type Item = Channel;

    ghost Said = { ChannelEntry };

    ghost said = { λ c. c };

    ghost all_said = { λ cs. cs };

    ghost reading = { λ s. channel s.destinations.now };

    ghost none_said = { refl };

    ghost one_more = { λ xs x. refl };

    ghost as_many = { λ xs. refl };

    #[tactic(auto, unfolding(crate::specs::Channels::channel))]
    fn read(
        &self,
        alloc: Global,
        before: &[Channel],
        at: &str,
        value: &Value,
    ) -> Result<Channel, Stop> {
        let keys = Keys::of(alloc, at, value)?;
        only_channel_keys(&keys)?;
        channel_of(&keys, before, self.destinations)
    }
}

/// The channels of a list, whose routes lead to one of these destinations.
pub(crate) fn channels_of(
    alloc: Global,
    destinations: &[Destination],
    values: &Array,
) -> Result<Vec<Channel>, Stop>
    requires { length destinations.now ≤ 32 }
    ensures { Gives (λ v. v.items) result (each_after (channel destinations.now) (codes "channel") [] (array_view values.now)) }
{
    each(alloc, &Channels { destinations }, "channel", values)
}
