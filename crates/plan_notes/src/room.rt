//! How many messages a book takes.

ghost use Rattle.std.specs.Prelude.{◌≡◌, ◌+◌, ◌-◌, ◌*◌, ◌<◌, ◌≤◌, IfSome, OnOk, cond, is_some, length};
ghost use Rattle.plan_notes.specs.inner.Room.{attempts_of, has_route, most_owed, owed_at, reserved, IsLeastAbove, IsLeastHeldBack, IsMost};

use crate::line::Line;
use crate::lines::Lines;
use plan_text::{Channel, Plan, Route};
use std::alloc::{AllocError, Global};

/// The most attempts that a destination, by its index, allows; 0 where there is no such destination.
fn attempts_of(plan: &Plan, destination: u32) -> u32
    ensures value { result ≡ attempts_of plan.now destination }
    ensures few { result ≤ 100 }
{
    plan.rules();
    match plan.destination(destination) {
        Some(destination) => destination.attempts(),
        None => 0,
    }
}

/// What a message owes where it waits at the destination of a route, if no attempt was made yet.
fn owed_at(plan: &Plan, route: &Route) -> u32
    ensures value { result ≡ owed_at plan.now route.now }
    ensures few { result ≤ 201 }
{
    2 * attempts_of(plan, route.to()) + 1
}

/// How many entries a message of a channel takes and reserves when it comes, if no route's filter leaves it out: its own, and
/// for each destination a take and a settlement for each attempt and a cancellation.
#[tactic(auto, using(std::proofs::lemmas::List::Sums::sum_by_more))]
fn reserved_by(plan: &Plan, channel: &Channel) -> u128
    ensures value { result ≡ reserved plan.now channel.now }
    ensures some { 1 ≤ result }
{
    let mut entries: u128 = 1;
    for route in channel.routes() {
        entries += u128::from(owed_at(plan, route));
    }
    entries
}

/// How many messages fit into a book of `events` entries, one after the other, where each of the earlier ones takes `each`
/// entries and the next one needs room for `reserved`.
fn most_messages(events: u32, each: u128, reserved: u128) -> u128
    requires some { 1 ≤ each }
    ensures { IsMost events each reserved result }
{
    let events = u128::from(events);
    if events < reserved {
        return 0;
    }
    (events - reserved) / each + 1
}

/// Adds how many messages of a channel a book takes.
fn add_room(
    notes: &mut Lines,
    plan: &Plan,
    channel: &Channel,
    events: u32,
) -> Result<(), AllocError> {
    let reserved = reserved_by(plan, channel);
    let delivered = 2 * channel.routes().len() as u128 + 1;
    let down = most_messages(events, reserved, reserved);
    let up = most_messages(events, delivered, reserved);
    let name = channel.name();
    let text = format!(in notes.alloc;
        "channel {name}: a book of {events} entries takes {down} messages while all its destinations are down, {up} while all are up"
    )?;
    notes.add(&text)
}

/// How many messages of each channel a book of `events` entries holds, if messages arrive on that channel alone and
/// each goes to all its destinations: while all of them are down, and while each message is delivered before the next
/// arrives.
///
/// # Errors
///
/// Where memory is refused. There are no lines then.
pub fn room_notes(alloc: Global, plan: &Plan, events: u32) -> Result<Vec<Line>, AllocError> {
    let mut notes = Lines::new(alloc);
    for index in 0..plan.channels() {
        if let Some(channel) = plan.channel(index) {
            add_room(&mut notes, plan, channel, events)?;
        }
    }
    Ok(notes.into_lines())
}

/// The least number of messages that take more than `bound` entries, `each` by a message.
fn least_above(bound: u64, each: u128) -> u128
    requires some { 1 ≤ each }
    ensures least { IsLeastAbove bound each result }
    ensures few { result ≤ bound + 1 }
{
    u128::from(bound) / each + 1
}

/// The least number of waiting messages that have a book of `events` entries hold further arrivals of their channel back. Each
/// takes and owes `reserved` entries, `owed` of them at the destination where it owes most. Either this destination owes more
/// than half of the book, or more than three quarters of it are taken or owed and less than an eighth is taken.
fn least_held_back(events: u32, owed: u32, reserved: u128) -> u128
    requires owed { 1 ≤ owed }
    requires reserved { 1 ≤ reserved }
    ensures { IsLeastHeldBack events owed reserved result }
{
    let events = u64::from(events);
    let by_half = least_above(events / 2, u128::from(owed));
    let by_three_quarters = least_above(3 * events / 4, reserved);
    if 8 * by_three_quarters < u128::from(events) {
        by_half.min(by_three_quarters)
    } else {
        by_half
    }
}

/// The most that a message of a channel owes at one of its destinations.
#[tactic(auto, using(std::proofs::lemmas::List::Sums::fold_more))]
fn most_owed(plan: &Plan, channel: &Channel) -> u32
    ensures value { result ≡ most_owed plan.now channel.now }
    ensures some { 1 ≤ length channel.now.routes → 1 ≤ result }
{
    let mut most = 0;
    for route in channel.routes() {
        most = most.max(owed_at(plan, route));
    }
    most
}

/// How many messages of a channel the book of a service takes while all its destinations are down.
#[derive(Clone, Copy, Debug, PartialEq, Eq)]
struct WhileDown {
    /// The least number of them that has the book hold further arrivals back.
    held_back: u128,
    /// The most that find room, if nothing is forgotten.
    room: u128,
}

/// How many messages of a channel a book of `events` entries takes while all its destinations are down, if each goes to all of
/// them; none for a channel without a destination.
fn while_down(plan: &Plan, channel: &Channel, events: u32) -> Option<WhileDown>
    ensures some { is_some result ≡ has_route channel.now }
    ensures held_back { IfSome result (λ d. IsLeastHeldBack events
        (most_owed plan.now channel.now) (reserved plan.now channel.now) d.held_back) }
    ensures room { IfSome result (λ d. IsMost events
        (reserved plan.now channel.now) (reserved plan.now channel.now) d.room) }
{
    if channel.routes().is_empty() {
        return None;
    }
    let reserved = reserved_by(plan, channel);
    Some(WhileDown {
        held_back: least_held_back(events, most_owed(plan, channel), reserved),
        room: most_messages(events, reserved, reserved),
    })
}

/// Adds how many messages of a channel the book of a service takes, if the channel has a destination. A book that is full before
/// it holds arrivals back may forget what its entries say, and then takes more.
fn add_held_back(
    notes: &mut Lines,
    plan: &Plan,
    channel: &Channel,
    events: u32,
) -> Result<(), AllocError>
    ensures { OnOk result (length notes.new.lines.items
        ≡ length notes.old.lines.items + cond (has_route channel.now) 1 0) }
{
    let Some(WhileDown { held_back, room }) = while_down(plan, channel, events) else {
        return Ok(());
    };
    let name = channel.name();
    let text = if held_back <= room {
        format!(in notes.alloc;
            "channel {name}: a book of {events} entries takes {held_back} messages while all its destinations are down, and holds back what follows"
        )?
    } else {
        format!(in notes.alloc;
            "channel {name}: a book of {events} entries takes at least {room} messages while all its destinations are down"
        )?
    };
    notes.add(&text)
}

/// How many messages of each channel the book of a service with `events` entries takes, if messages arrive on that channel
/// alone, each goes to all its destinations and all of them are down, until what follows is held back.
///
/// # Errors
///
/// Where memory is refused. There are no lines then.
pub fn held_back_notes(alloc: Global, plan: &Plan, events: u32) -> Result<Vec<Line>, AllocError> {
    let mut notes = Lines::new(alloc);
    for index in 0..plan.channels() {
        if let Some(channel) = plan.channel(index) {
            add_held_back(&mut notes, plan, channel, events)?;
        }
    }
    Ok(notes.into_lines())
}
