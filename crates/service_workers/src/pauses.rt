//! Which channels' reading has to pause.

ghost use Rattle.std.specs.Prelude.{◌≡◌, ◌≢◌, ◌<◌, ◌^◌, ◌==◌, ℕ};
ghost use Rattle.std.specs.Int.{bit_at};
ghost use Rattle.service_workers.specs.inner.Pauses.{crowded_route, frees_enough, held_back_at, held_back_route, holds_up, is_crowded, is_filling, is_held_back, is_overfull, leads_to_crowd, leads_to_holder, load, pause_cause, pauses, pauses_at, queued_at};

use book_lock::{Gauge, Load, Status, owed_by_queue};
use plan_text::{Channel, Plan};
use stat_count::DestinationCounts;

/// Why the reading of a channel pauses.
#[derive(Clone, Copy, Debug, PartialEq, Eq)]
pub enum PauseCause {
    /// As many messages are remembered as may be.
    Remembered,
    /// Four fifths as many messages are remembered as may be, and the one that keeps those behind it from being forgotten waits for
    /// a destination of the channel's.
    Filling,
    /// What waits for the destination at this index may take half of the book.
    Queue(u32),
    /// The book is three quarters full, and what waits for the destination at this index takes an equal share of what is owed.
    Share(u32),
}

/// Whether as many messages are remembered as may be: those that a pruning keeps, and one for each entry that the book may
/// hold.
pub(crate) fn is_overfull(gauge: Gauge, keep: u32) -> bool
    ensures { result ≡ is_overfull keep gauge }
{
    u64::from(gauge.remembered()) >= u64::from(keep) + u64::from(gauge.events_max)
}

/// Whether four fifths as many messages are remembered as may be.
pub(crate) fn is_filling(gauge: Gauge, keep: u32) -> bool
    ensures { result ≡ is_filling keep gauge }
{
    5 * u64::from(gauge.remembered()) >= 4 * (u64::from(keep) + u64::from(gauge.events_max))
}

/// Whether the first message that is still to be delivered is at the front of a destination's queue, so that neither it nor those
/// behind it can be forgotten.
fn holds_up(status: &Status, index: u32) -> bool
    ensures { result ≡ holds_up status.now index }
{
    match (status.first_live, status.fronts.get(index as usize)) {
        (Some(number), Some(Some(front))) => front.number == number,
        _ => false,
    }
}

/// Whether a channel has a route to a destination at which the first message waits that is still to be delivered.
fn leads_to_holder(status: &Status, channel: &Channel) -> bool
    ensures { result ≡ leads_to_holder status.now channel.now }
{
    channel
        .routes()
        .iter()
        .any(|route| holds_up(status, route.to()))
}

/// Whether a pruning would forget more messages than an eighth of the entries that the book may hold. The number of prunings
/// is limited, so none is made for a few messages.
pub(crate) fn frees_enough(status: &Status, keep: u32) -> bool
    ensures { result ≡ frees_enough keep status.now }
{
    let Gauge {
        messages,
        first,
        events_max,
        ..
    } = status.gauge;
    let settled = status.first_live.unwrap_or(messages);
    let before = settled.min(messages.saturating_sub(keep));
    before.saturating_sub(first) > events_max / 8
}

/// How many messages wait for a destination or are in flight there.
fn queued_at(status: &Status, index: u32) -> u128
    requires { index < 32 }
    ensures value { result ≡ queued_at status.now index }
    ensures bound { result < 2 ^ 66 }
{
    let DestinationCounts {
        waiting,
        inflight,
        ..
    } = status.counts.destination(index);
    u128::from(waiting) + u128::from(inflight)
}

/// Whether what waits for a destination, or is in flight there, may take more than half of the entries that the book may
/// hold, or more than a quarter where reading pauses: a take and a settlement for each attempt of each message, and a
/// cancellation.
fn is_crowded(plan: &Plan, status: &Status, is_paused: bool, index: u32) -> bool
    ensures { result ≡ is_crowded plan.now status.now is_paused index }
{
    plan.rules();
    let Some(destination) = plan.destination(index) else {
        return false;
    };
    let messages = queued_at(status, index);
    let owed = messages * (2 * u128::from(destination.attempts()) + 1);
    let parts = if is_paused { 4 } else { 2 };
    parts * owed > u128::from(status.gauge.events_max)
}

/// How full the book is, and among how many destinations what it owes is shared.
fn load(plan: &Plan, status: &Status) -> Load
    ensures { result ≡ load plan.now status.now }
{
    let Gauge {
        held,
        owed,
        events_max,
        ..
    } = status.gauge;
    Load {
        held,
        owed,
        events_max,
        destinations: plan.destinations(),
    }
}

/// Whether a destination is crowded, so that arrivals for it are held back.
fn is_held_back(plan: &Plan, status: &Status, index: u32) -> bool
    ensures { result ≡ is_held_back plan.now status.now index }
{
    plan.rules();
    let Some(destination) = plan.destination(index) else {
        return false;
    };
    let messages = queued_at(status, index);
    load(plan, status).crowds(owed_by_queue(messages, destination.attempts()))
}

/// The first destination that a channel has a route to and that is crowded.
fn held_back_route(plan: &Plan, status: &Status, channel: &Channel) -> Option<u32>
    ensures { result ≡ held_back_route plan.now status.now channel.now }
{
    let route = channel
        .routes()
        .iter()
        .find(|route| is_held_back(plan, status, route.to()))?;
    Some(route.to())
}

/// Whether arrivals on the channel at an index of this plan are held back, since it has a route to a crowded destination.
fn held_back_at(plan: &Plan, status: &Status, index: u32) -> bool
    ensures { result ≡ held_back_at plan.now status.now index }
{
    match plan.channel(index) {
        Some(channel) => held_back_route(plan, status, channel).is_some(),
        None => false,
    }
}

/// The first destination that a channel has a route to and whose queue may take more than half of the book.
fn crowded_route(plan: &Plan, status: &Status, channel: &Channel) -> Option<u32>
    ensures { result ≡ crowded_route plan.now status.now channel.now }
{
    let route = channel
        .routes()
        .iter()
        .find(|route| is_crowded(plan, status, false, route.to()))?;
    Some(route.to())
}

/// Why the reading of a channel of this plan has to begin to pause, if it has to.
pub fn pause_cause(plan: &Plan, status: &Status, keep: u32, channel: &Channel) -> Option<PauseCause>
    ensures { result ≡ pause_cause plan.now status.now keep channel.now }
{
    if is_overfull(status.gauge, keep) {
        return Some(PauseCause::Remembered);
    }
    if is_filling(status.gauge, keep) && leads_to_holder(status, channel) {
        return Some(PauseCause::Filling);
    }
    if let Some(index) = crowded_route(plan, status, channel) {
        return Some(PauseCause::Queue(index));
    }
    let index = held_back_route(plan, status, channel)?;
    Some(PauseCause::Share(index))
}

/// Whether what waits for a destination to which a channel has a route may take too much of the book, where the channel's
/// reading pauses or not so far.
fn leads_to_crowd(plan: &Plan, status: &Status, is_paused: bool, channel: &Channel) -> bool
    ensures { result ≡ leads_to_crowd plan.now status.now is_paused channel.now }
{
    channel
        .routes()
        .iter()
        .any(|route| is_crowded(plan, status, is_paused, route.to()))
}

/// Whether the reading of a channel of this plan has to pause, where it pauses or not so far.
fn pauses(plan: &Plan, status: &Status, keep: u32, is_paused: bool, channel: &Channel) -> bool
    ensures { result ≡ pauses plan.now status.now keep is_paused channel.now }
{
    is_overfull(status.gauge, keep)
        || is_filling(status.gauge, keep) && leads_to_holder(status, channel)
        || leads_to_crowd(plan, status, is_paused, channel)
}

/// Whether the bit of a channel is set in a mask.
pub(crate) fn has_channel(mask: u64, channel: u32) -> bool
    requires { channel < 64 }
    ensures { result ≡ (bit_at mask channel == 1) }
{
    mask >> channel & 1 == 1
}

/// A mask, with the bit of a channel set where this is so.
#[tactic(auto, using(crate::proofs::Masks::set_here, crate::proofs::Masks::set_others))]
fn with_channel(mask: u64, channel: u32, is_set: bool) -> u64
    requires { channel < 64 }
    ensures here { bit_at mask channel ≡ 0 → (bit_at result channel == 1) ≡ is_set }
    ensures others { (c : ℕ) → c ≢ channel → bit_at result c ≡ bit_at mask c }
{
    if is_set { mask | 1 << channel } else { mask }
}

/// Whether the reading of the channel at an index of this plan has to pause, where those of a mask pause so far.
fn pauses_at(plan: &Plan, status: &Status, keep: u32, before: u64, index: u32) -> bool
    requires { index < 64 }
    ensures { result ≡ pauses_at plan.now status.now keep before index }
{
    match plan.channel(index) {
        Some(channel) => pauses(plan, status, keep, has_channel(before, index), channel),
        None => false,
    }
}

/// The channels whose reading has to pause, one bit each, where those of `before` pause so far: all where as many messages
/// are remembered as may be; from four fifths of that on those with a route to the destination whose first message keeps all behind
/// it from being forgotten; and those with a route to a destination whose queue may take more than half of the book. A
/// channel that pauses goes on once the queues may take a quarter at most.
#[tactic(auto, using(crate::proofs::Masks::mask_none, crate::proofs::Masks::mask_more, crate::proofs::Masks::mask_all))]
pub fn paused_by(plan: &Plan, status: &Status, keep: u32, before: u64) -> u64
    ensures { (c : ℕ) → (bit_at result c == 1) ≡ pauses_at plan.now status.now keep before c }
{
    plan.rules();
    let mut mask = 0;
    for index in 0..plan.channels() {
        mask = with_channel(mask, index, pauses_at(plan, status, keep, before, index));
    }
    mask
}

/// The channels whose arrivals are held back, one bit each: those with a route to a crowded destination.
#[tactic(auto, using(crate::proofs::Masks::mask_none, crate::proofs::Masks::mask_more, crate::proofs::Masks::mask_all_held_back))]
pub fn held_back_by(plan: &Plan, status: &Status) -> u64
    ensures { (c : ℕ) → (bit_at result c == 1) ≡ held_back_at plan.now status.now c }
{
    plan.rules();
    let mut mask = 0;
    for index in 0..plan.channels() {
        mask = with_channel(mask, index, held_back_at(plan, status, index));
    }
    mask
}
