//! How urgently the parts of a service need attention.

ghost use Rattle.std.specs.Prelude.{◌≡◌, ◌<◌, ◌&&◌, ℕ, false, length, true};
ghost use Rattle.service_pages.specs.inner.Attention.{
  IsUndisturbed,
  has_failed,
  has_lost_some,
  is_channel_troubled,
  is_cut_off,
  is_destination_troubled,
  is_filling,
  is_held,
  is_paused,
  is_queued,
  is_refusing,
  is_remembering,
  is_service_troubled,
  is_taken,
  is_half,
};
ghost use Rattle.service_pages.specs.inner.Levels.{is_calm};

use crate::view::{Phase, View};
use book_lock::Gauge;
use dest_queue::SlotState;
use fixed_numbers::{DEPLOYMENTS_MAX, DESTINATIONS, PRUNINGS_MAX};

/// After how many seconds as the first of its queue a message is slow.
const SLOW_SECONDS: u64 = 10;

/// After how many seconds as the first of its queue a message is stuck.
const STUCK_SECONDS: u64 = 60;

/// After how many seconds a destination that refuses or doesn't answer is down.
const DOWN_SECONDS: u64 = 30;

/// After how many seconds a queue is behind in which a message waits that had been received before them.
const BEHIND_SECONDS: u64 = 300;

/// For how many seconds a failure is shown at the top of the page.
const FRESH_SECONDS: u64 = 3_600;

/// How urgently something needs attention.
#[derive(Clone, Copy, PartialEq, Eq, PartialOrd, Ord)]
pub(crate) enum Level {
    Fine,
    Look,
    Act,
}

impl Level {
    /// The class of its colours.
    pub(crate) fn class(self) -> &'static str {
        match self {
            Level::Fine => "ok",
            Level::Look => "look",
            Level::Act => "act",
        }
    }
}

/// The more urgent of two levels.
fn worse(one: Level, other: Level) -> Level
    ensures { is_calm result ≡ (is_calm one && is_calm other) }
{
    match (one, other) {
        (Level::Act, _) | (_, Level::Act) => Level::Act,
        (Level::Look, _) | (_, Level::Look) => Level::Look,
        (Level::Fine, Level::Fine) => Level::Fine,
    }
}

/// The message that is first in a destination's queue, how many of its attempts failed, and for how many seconds it has been first. None
/// where the queue is empty.
pub(crate) fn front_of(view: &View<'_>, destination: u32) -> Option<(u32, u32, u64)> {
    let front = (*view.status.fronts.get(destination as usize)?)?;
    let failed = match front.state {
        SlotState::Waiting { attempts, .. } => attempts,
        SlotState::InFlight { attempt } => attempt.saturating_sub(1),
        _ => 0,
    };
    let waited = view
        .figures
        .now
        .saturating_sub(view.watch.since(destination));
    Some((front.number, failed, waited))
}

/// Whether there is no connection to a destination since one failed or could not be opened.
pub(crate) fn is_unconnected(view: &View<'_>, destination: u32) -> bool {
    destination < DESTINATIONS && view.figures.is_unconnected(destination)
}

/// Whether a message is first in a destination's queue.
fn is_queued(view: &View<'_>, destination: u32) -> bool
    ensures { result ≡ is_queued view.now destination }
{
    match view.status.fronts.get(destination as usize) {
        Some(front) => front.is_some(),
        None => false,
    }
}

/// Whether messages wait for a destination to which there is no connection since one failed or could not be opened.
pub(crate) fn is_cut_off(view: &View<'_>, destination: u32) -> bool
    requires { destination < 32 }
    ensures { result ≡ is_cut_off view.now destination }
{
    is_queued(view, destination) && view.figures.is_unconnected(destination)
}

/// How urgently messages for a destination to which there is no connection need attention.
fn cut_off_level(view: &View<'_>, destination: u32) -> Level
    ensures { is_calm result ≡ false }
{
    match front_of(view, destination) {
        Some((_, _, waited)) if waited >= DOWN_SECONDS => Level::Act,
        _ => Level::Look,
    }
}

/// Whether a destination is held.
fn is_held(view: &View<'_>, destination: u32) -> bool
    requires { destination < 32 }
    ensures { result ≡ is_held view.now destination }
{
    view.figures.held >> destination & 1 == 1
}

/// For how many seconds a message that had been received before them is in a destination's queue; 0 where the queue is empty.
pub(crate) fn behind_of(view: &View<'_>, destination: u32) -> u64 {
    match view.watch.behind_since(destination) {
        0 => 0,
        since => view.figures.now.saturating_sub(since),
    }
}

/// Whether a destination's queue is behind: a message in it was received 300 seconds ago or earlier.
pub(crate) fn is_behind(view: &View<'_>, destination: u32) -> bool {
    behind_of(view, destination) >= BEHIND_SECONDS
}

/// How urgently a destination's queue needs attention: in any case where the destination is held, or where messages wait for it and
/// there is no connection.
pub(crate) fn queue_level(view: &View<'_>, destination: u32) -> Level
    requires { destination < 32 }
    ensures reachable { is_calm result ≡ true → is_cut_off view.now destination ≡ false }
    ensures free { is_calm result ≡ true → is_held view.now destination ≡ false }
{
    if is_held(view, destination) {
        return Level::Look;
    }
    if is_cut_off(view, destination) {
        return cut_off_level(view, destination);
    }
    match front_of(view, destination) {
        None => Level::Fine,
        Some(_) if is_behind(view, destination) => Level::Act,
        Some((_, failed, waited)) => {
            if waited >= STUCK_SECONDS || failed > 0 && waited >= DOWN_SECONDS {
                Level::Act
            } else if waited >= SLOW_SECONDS || failed > 0 {
                Level::Look
            } else {
                Level::Fine
            }
        }
    }
}

/// Whether a message failed at a destination within the last hour.
pub(crate) fn is_fresh(view: &View<'_>, destination: u32) -> bool
    ensures { result ≡ has_failed view.now destination }
{
    let at = view.watch.failed_at(destination);
    at > 0 && view.figures.now.saturating_sub(at) < FRESH_SECONDS
}

/// How urgently a destination needs attention.
pub(crate) fn destination_level(view: &View<'_>, destination: u32) -> Level
    requires { destination < 32 }
    ensures { is_calm result ≡ true → is_destination_troubled view.now destination ≡ false }
{
    let failures = if is_fresh(view, destination) {
        Level::Look
    } else {
        Level::Fine
    };
    worse(queue_level(view, destination), failures)
}

/// Whether a channel is not read at this time.
pub(crate) fn is_paused(view: &View<'_>, channel: u32) -> bool
    requires { channel < 64 }
    ensures { result ≡ is_paused view.now channel }
{
    view.figures.paused >> channel & 1 == 1
}

/// Whether all connections of a channel are taken.
pub(crate) fn is_taken(view: &View<'_>, channel: u32) -> bool
    ensures { result ≡ is_taken view.now channel }
{
    let (Some(places), Some(open)) = (
        view.figures.places.get(channel as usize),
        view.figures.open_by_channel.get(channel as usize),
    ) else {
        return false;
    };
    *places > 0 && *open >= *places
}

/// Whether messages of a channel were refused by their content within the last 15 minutes.
pub(crate) fn is_refusing(view: &View<'_>, channel: u32) -> bool
    ensures { result ≡ is_refusing view.now channel }
{
    match view.watch.refused.get(channel as usize) {
        Some(refused) => refused.is_recent(view.figures.now),
        None => false,
    }
}

/// How urgently a channel needs attention.
pub(crate) fn channel_level(view: &View<'_>, channel: u32) -> Level
    requires { channel < 64 }
    ensures { is_calm result ≡ true → is_channel_troubled view.now channel ≡ false }
{
    if is_paused(view, channel) {
        Level::Act
    } else if view.phase != Phase::Open || is_taken(view, channel) || is_refusing(view, channel) {
        Level::Look
    } else {
        Level::Fine
    }
}

/// How full the book is, in percent, rounded up.
pub(crate) fn used(view: &View<'_>) -> u64 {
    let gauge = view.status.gauge;
    let most = u64::from(gauge.events_max).max(1);
    let entries = (gauge.held as u64).saturating_add(u64::from(gauge.owed));
    entries.saturating_mul(100).div_ceil(most).min(100)
}

/// How many messages are remembered, in percent of as many as may be, rounded up: no channel is read at 100.
pub(crate) fn remembered(view: &View<'_>) -> u64 {
    let gauge = view.status.gauge;
    let most = u64::from(view.figures.keep)
        .saturating_add(u64::from(gauge.events_max))
        .max(1);
    u64::from(gauge.remembered())
        .saturating_mul(100)
        .div_ceil(most)
        .min(100)
}

/// Whether the entries of the book and those that it owes are more than nine tenths of its bound.
fn is_filling(view: &View<'_>) -> bool
    ensures { result ≡ is_filling view.now }
{
    let gauge = view.status.gauge;
    10 * (gauge.held as u128 + u128::from(gauge.owed)) > 9 * u128::from(gauge.events_max)
}

/// Whether more than half as many messages are remembered as may be, by the book and how many a pruning keeps.
fn is_half(gauge: Gauge, keep: u32) -> bool
    ensures { result ≡ is_half gauge keep }
{
    let remembered = gauge.messages.saturating_sub(gauge.first);
    2 * u64::from(remembered) > u64::from(keep) + u64::from(gauge.events_max)
}

/// Whether more than half as many messages are remembered as may be.
fn is_remembering(view: &View<'_>) -> bool
    ensures { result ≡ is_remembering view.now }
{
    is_half(view.status.gauge, view.figures.keep)
}

/// Whether messages were not booked, or blocks dropped that were no acknowledgments, within the last 15 minutes.
fn has_lost_some(view: &View<'_>) -> bool
    ensures { result ≡ has_lost_some view.now }
{
    let now = view.figures.now;
    view.watch.unbooked.is_recent(now) || view.watch.dropped.is_recent(now)
}

/// How urgently a use of this percentage needs attention.
pub(crate) fn percent_level(percent: u64) -> Level {
    if percent >= 95 {
        Level::Act
    } else if percent >= 80 {
        Level::Look
    } else {
        Level::Fine
    }
}

/// How urgently the number of remembered messages needs attention. Settled messages that a pruning can forget need none.
pub(crate) fn remembered_level(view: &View<'_>) -> Level {
    let gauge = view.status.gauge;
    let settled = view.status.first_live.unwrap_or(gauge.messages);
    if settled.saturating_sub(gauge.first) > gauge.events_max / 8 {
        Level::Fine
    } else {
        percent_level(remembered(view))
    }
}

/// How urgently the book needs attention.
pub(crate) fn book_level(view: &View<'_>) -> Level
    ensures filling { is_calm result ≡ true → is_filling view.now ≡ false }
    ensures remembering { is_calm result ≡ true → is_remembering view.now ≡ false }
{
    let gauge = view.status.gauge;
    let prunings = PRUNINGS_MAX.saturating_sub(gauge.prunings);
    let deployments = DEPLOYMENTS_MAX.saturating_sub(gauge.deployments);
    let left = prunings.min(deployments);
    let few = if left <= 10 {
        Level::Act
    } else if left <= 100 {
        Level::Look
    } else {
        Level::Fine
    };
    let level = worse(
        worse(percent_level(used(view)), remembered_level(view)),
        few,
    );
    if is_filling(view) || is_remembering(view) {
        worse(level, Level::Look)
    } else {
        level
    }
}

/// How urgently the store needs attention.
pub(crate) fn store_level(view: &View<'_>) -> Level {
    match view.figures.store {
        Some(store) if store.has_no_room => Level::Act,
        Some(_) if view.watch.has_slow_store(view.figures.now) => Level::Look,
        _ => Level::Fine,
    }
}

/// How urgently messages and blocks that were not booked need attention.
pub(crate) fn arrivals_level(view: &View<'_>) -> Level
    ensures { is_calm result ≡ true → has_lost_some view.now ≡ false }
{
    if has_lost_some(view) {
        Level::Look
    } else {
        Level::Fine
    }
}

/// How urgently it needs attention which plan is in force.
pub(crate) fn plan_level(view: &View<'_>) -> Level
    ensures { is_calm result ≡ true → view.now.figures.now.plan_differs ≡ false }
{
    if view.figures.plan_differs {
        Level::Look
    } else {
        Level::Fine
    }
}

/// How urgently the book, the store, the plan and the arrivals need attention.
fn inner_level(view: &View<'_>) -> Level
    ensures { is_calm result ≡ true → is_service_troubled view.now ≡ false }
{
    worse(
        worse(book_level(view), store_level(view)),
        worse(arrivals_level(view), plan_level(view)),
    )
}

/// How urgently the channels need attention.
fn channels_level(view: &View<'_>) -> Level
    ensures { is_calm result ≡ true → (c : ℕ) → c < length view.now.plan.now.channels
        → is_channel_troubled view.now c ≡ false }
{
    view.plan.rules();
    let mut level = Level::Fine;
    for index in 0..view.plan.channels() {
        level = worse(level, channel_level(view, index));
    }
    level
}

/// How urgently the destinations need attention.
fn outer_level(view: &View<'_>) -> Level
    ensures { is_calm result ≡ true → (d : ℕ) → d < length view.now.plan.now.destinations
        → is_destination_troubled view.now d ≡ false }
{
    view.plan.rules();
    let mut level = Level::Fine;
    for index in 0..view.plan.destinations() {
        level = worse(level, destination_level(view, index));
    }
    level
}

/// How urgently the service needs attention. It never needs none while something holds that an alert rule fires on.
pub(crate) fn level_of(view: &View<'_>) -> Level
    ensures { is_calm result ≡ true → IsUndisturbed view.now }
{
    worse(
        inner_level(view),
        worse(channels_level(view), outer_level(view)),
    )
}
