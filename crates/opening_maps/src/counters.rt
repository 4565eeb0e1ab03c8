//! The counters of an opening are set aside.

ghost use Rattle.std.specs.Prelude.{◌≡◌, IfOk, map};
ghost use Rattle.opening_maps.specs.inner.SetAside.{counts_aside, counts_left, destination_aside, destination_left, uncounted};

use crate::sharing::share_all;
use event_log::Snapshot;
use stat_count::{CHANNELS, ChannelCounts, Counts, DestinationCounts};
use std::alloc::{AllocError, Global};
use std::sync::Arc;

/// Counters that were set aside, of channels and of destinations in the order of their indices. What people see is a counter of
/// the book and what was set aside of it before, in all.
#[derive(Drop)]
pub struct CountsAside {
    pub channels: Vec<ChannelCounts>,
    pub destinations: Vec<DestinationCounts>,
}

/// An opening whose counters were set aside, and these.
#[derive(Drop)]
pub struct UncountedOpening {
    pub opening: Snapshot,
    pub aside: CountsAside,
}

/// The counters of a channel of which nothing was received.
const NO_ARRIVALS: ChannelCounts = ChannelCounts {
    received: 0,
    filtered: 0,
    accepted: 0,
    refused: 0,
    repeats: 0,
};

/// The counters of a destination that stay where that many arrivals are remembered.
fn destination_left(arrivals: u64, counts: DestinationCounts) -> DestinationCounts
    ensures { result ≡ destination_left arrivals counts }
{
    DestinationCounts {
        waiting: 0,
        inflight: 0,
        delivered: 0,
        failed: 0,
        attempts: counts.attempts.min(arrivals),
    }
}

/// The counters of a destination that are set aside.
fn destination_aside(arrivals: u64, counts: DestinationCounts) -> DestinationCounts
    ensures { result ≡ destination_aside arrivals counts }
{
    DestinationCounts {
        waiting: 0,
        inflight: 0,
        delivered: counts.delivered,
        failed: counts.failed,
        attempts: counts.attempts.saturating_sub(arrivals),
    }
}

/// The counters that stay of destinations.
fn destinations_left(
    alloc: Global,
    arrivals: u64,
    destinations: &[DestinationCounts],
) -> Result<Vec<DestinationCounts>, AllocError>
    ensures { IfOk result (λ left. left.items ≡ map (destination_left arrivals) destinations.now) }
{
    let mut left = Vec::new(alloc);
    for counts in destinations {
        left.push(destination_left(arrivals, *counts))?;
    }
    Ok(left)
}

/// The counters of destinations that are set aside.
fn destinations_aside(
    alloc: Global,
    arrivals: u64,
    destinations: &[DestinationCounts],
) -> Result<Vec<DestinationCounts>, AllocError>
    ensures { IfOk result (λ aside. aside.items ≡ map (destination_aside arrivals) destinations.now) }
{
    let mut aside = Vec::new(alloc);
    for counts in destinations {
        aside.push(destination_aside(arrivals, *counts))?;
    }
    Ok(aside)
}

/// The counters that stay of an opening.
fn counts_left(alloc: Global, opening: &Snapshot) -> Result<Counts, AllocError>
    ensures { IfOk result (λ left. left ≡ counts_left opening.now) }
{
    let arrivals = opening.remembered().len() as u64;
    let channels = [NO_ARRIVALS; CHANNELS as usize];
    let destinations = destinations_left(alloc, arrivals, opening.forgotten().destinations())?;
    match Counts::of(&channels, &destinations) {
        Some(left) => Ok(left),
        None => unreachable!(),
    }
}

/// The counters that are set aside of an opening.
fn counts_aside(alloc: Global, opening: &Snapshot) -> Result<CountsAside, AllocError>
    ensures channels { IfOk result (λ aside. aside.channels.items ≡ (counts_aside opening.now).channels) }
    ensures destinations { IfOk result (λ aside. aside.destinations.items ≡ (counts_aside opening.now).destinations) }
{
    let arrivals = opening.remembered().len() as u64;
    let counts = opening.forgotten();
    Ok(CountsAside {
        channels: Vec::from_slice(alloc, counts.channels())?,
        destinations: destinations_aside(alloc, arrivals, counts.destinations())?,
    })
}

/// The opening with its counters set aside, and these: all of each channel, and of each destination but for an attempt for each
/// arrival that is remembered, which stays since it may have been taken there. What is counted of the book that goes on from
/// it, with what was set aside, is what was counted. So the counters don't keep `rebased` from lowering the numbers.
///
/// # Errors
///
/// Where memory is refused.
pub fn uncounted(alloc: Global, opening: &Snapshot) -> Result<UncountedOpening, AllocError>
    ensures opening { IfOk result (λ it. it.opening ≡ uncounted opening.now) }
    ensures channels { IfOk result (λ it. it.aside.channels.items ≡ (counts_aside opening.now).channels) }
    ensures destinations { IfOk result (λ it. it.aside.destinations.items ≡ (counts_aside opening.now).destinations) }
{
    let aside = counts_aside(alloc, opening)?;
    let opening = Snapshot::of(
        Arc::try_clone(opening.plan())?,
        opening.events_max(),
        opening.places(),
        opening.messages(),
        opening.deployments(),
        opening.prunings(),
        counts_left(alloc, opening)?,
        share_all(alloc, opening.remembered())?,
    );
    Ok(UncountedOpening { opening, aside })
}
