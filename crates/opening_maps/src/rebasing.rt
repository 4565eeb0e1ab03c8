//! The numbers of an opening are lowered.

ghost use Rattle.std.specs.Prelude.{◌≡◌, IfOk, map};
ghost use Rattle.opening_maps.specs.inner.Rebased.{arrival_lower, first_number, first_place, least_places, lower_messages, lower_places, lowering, most_attempts, most_received, most_settled, opening_lower, rebased, told_lower};

use crate::sharing::deliveries_of;
use event_log::{EVENTS_MAX, Remembered, Snapshot, Told};
use stat_count::Counts;
use std::alloc::{AllocError, Global};
use std::sync::Arc;

/// By how much the numbers of an opening were lowered. What people see is a number of the book and what it was lowered by
/// before, in all.
#[derive(Clone, Copy, Debug, PartialEq, Eq)]
pub struct Lowered {
    /// The indices of entries, and how many entries were folded.
    pub places: usize,
    /// The numbers of messages, and how many messages were accepted.
    pub messages: u32,
    /// How many plans were deployed.
    pub deployments: u32,
    /// How many prunings were made.
    pub prunings: u32,
}

/// An opening whose numbers were lowered, and by how much.
#[derive(Drop)]
pub struct RebasedOpening {
    pub opening: Snapshot,
    pub lowered: Lowered,
}

/// The most messages that a destination counts as delivered or failed.
fn most_settled(counts: &Counts) -> u128
    ensures { result ≡ most_settled counts.now }
{
    let mut most = 0;
    for d in counts.destinations() {
        most = most.max(u128::from(d.delivered) + u128::from(d.failed));
    }
    most
}

/// The most messages that a channel counts, repeats among them.
fn most_received(counts: &Counts) -> u128
    ensures { result ≡ most_received counts.now }
{
    let mut most = 0;
    for c in counts.channels() {
        most = most.max(u128::from(c.received) + u128::from(c.repeats));
    }
    most
}

/// The most attempts that a destination counts.
fn most_attempts(counts: &Counts) -> u128
    ensures { result ≡ most_attempts counts.now }
{
    let mut most = 0;
    for d in counts.destinations() {
        most = most.max(u128::from(d.attempts));
    }
    most
}

/// The index of the first arrival that is remembered, and the next index where none is.
fn first_place(opening: &Snapshot) -> usize
    ensures { result ≡ first_place opening.now }
{
    match opening.remembered() {
        [] => opening.places(),
        [first, ..] => first.place(),
    }
}

/// The number of the first message that is remembered, and the next number where none is.
fn first_number(opening: &Snapshot) -> u32
    ensures { result ≡ first_number opening.now }
{
    for arrival in opening.remembered() {
        if let Told::Accepted(number) = arrival.told() {
            return number;
        }
    }
    opening.messages()
}

/// By how much the numbers of messages may be lowered.
fn lower_messages(opening: &Snapshot) -> u32
    ensures { result ≡ lower_messages opening.now }
{
    let first = u128::from(first_number(opening));
    first.saturating_sub(most_settled(opening.forgotten())) as u32
}

/// The least number of folded entries that an opening may have, if that many messages were accepted before it.
fn least_places(messages: u32, counts: &Counts) -> u128
    ensures { result ≡ least_places messages counts.now }
{
    let counted = most_received(counts).max(most_attempts(counts));
    u128::from(messages).max(counted)
}

/// By how much indices may be lowered, where the numbers of messages are lowered by this much.
fn lower_places(opening: &Snapshot, messages: u32) -> usize
    requires { messages ≡ lower_messages opening.now }
    ensures { result ≡ lower_places opening.now }
{
    let left = opening.messages().saturating_sub(messages);
    let least = least_places(left, opening.forgotten());
    let room = (opening.places() as u128).saturating_sub(least) as usize;
    first_place(opening).min(room)
}

/// By how much the numbers of an opening may be lowered.
fn lowering(opening: &Snapshot) -> Lowered
    ensures { result ≡ lowering opening.now }
{
    let messages = lower_messages(opening);
    let places = lower_places(opening, messages);
    let left = opening.places().saturating_sub(places);
    let needed = left.div_ceil(EVENTS_MAX as usize);
    let prunings = (opening.prunings() as usize).saturating_sub(needed) as u32;
    Lowered {
        places,
        messages,
        deployments: opening.deployments(),
        prunings,
    }
}

/// An answer with a number that is lower by this much.
fn told_lower(by: u32, told: Told) -> Told
    ensures { result ≡ told_lower by told }
{
    match told {
        Told::Accepted(number) => Told::Accepted(number.saturating_sub(by)),
        Told::Filtered | Told::Refused(_) | Told::Repeat(_) => told,
    }
}

/// A remembered arrival with an index and a number that are lower by this much.
fn arrival_lower(by: Lowered, arrival: &Remembered) -> Result<Remembered, AllocError>
    ensures { IfOk result (λ lower. lower ≡ arrival_lower by arrival.now) }
{
    Ok(Remembered::new(
        arrival.place().saturating_sub(by.places),
        arrival.channel(),
        arrival.raw().share()?,
        told_lower(by.messages, arrival.told()),
        deliveries_of(arrival)?,
        arrival.slots().copy()?,
    ))
}

/// Remembered arrivals, each with an index and a number that are lower by this much.
fn arrivals_lower(
    alloc: Global,
    by: Lowered,
    arrivals: &[Remembered],
) -> Result<Vec<Remembered>, AllocError>
    ensures { IfOk result (λ lower. lower.items ≡ map (arrival_lower by) arrivals.now) }
{
    let mut lower = Vec::with_capacity(alloc, arrivals.len())?;
    for arrival in arrivals {
        lower.push(arrival_lower(by, arrival)?)?;
    }
    Ok(lower)
}

/// An opening whose numbers are lower by as much as they may be.
#[tactic(auto, using(crate::proofs::LowNumbers::places_rise))]
fn opening_lower(alloc: Global, by: Lowered, opening: &Snapshot) -> Result<Snapshot, AllocError>
    requires { by ≡ lowering opening.now }
    ensures { IfOk result (λ lower. lower ≡ opening_lower by opening.now) }
{
    let remembered = arrivals_lower(alloc, by, opening.remembered())?;
    Ok(Snapshot::of(
        Arc::try_clone(opening.plan())?,
        opening.events_max(),
        opening.places().saturating_sub(by.places),
        opening.messages().saturating_sub(by.messages),
        opening.deployments().saturating_sub(by.deployments),
        opening.prunings().saturating_sub(by.prunings),
        *opening.forgotten(),
        remembered,
    ))
}

/// The opening with its numbers lowered as far as may be, and by how much: indices go on from the first arrival that is
/// remembered and the numbers of messages from the first message, but leave as many entries folded and messages forgotten as the
/// counters of what was forgotten count; no deployment is left, and as few prunings as the folded entries take. The plan, the
/// counters, and all else of what is remembered are the same.
///
/// # Errors
///
/// Where memory is refused.
pub fn rebased(alloc: Global, opening: &Snapshot) -> Result<RebasedOpening, AllocError>
    ensures opening { IfOk result (λ it. it.opening ≡ rebased opening.now) }
    ensures lowered { IfOk result (λ it. it.lowered ≡ lowering opening.now) }
{
    let lowered = lowering(opening);
    Ok(RebasedOpening {
        opening: opening_lower(alloc, lowered, opening)?,
        lowered,
    })
}
