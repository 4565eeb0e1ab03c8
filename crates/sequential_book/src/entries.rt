//! What a list of entries says, read from its start.

ghost use Rattle.std.specs.Prelude.{◌≡◌, ◌<◌, ◌≤◌, ◌==◌, [], IfOk, IfSome, None, All, false, if◌then◌else◌, count_by, length, slice_get};
ghost use Rattle.std.specs.Arc.{arc_value};
ghost use Rattle.std.specs.Int.{bit_at};
ghost use Rattle.std.specs.List.{filter_map, position};
ghost use Rattle.std.specs.Option.{option_map_or};
ghost use Rattle.mllp_frame.specs.Framing.{IsBlockData};
ghost use Rattle.judge_core.specs.Judging.{deliveries_of};
ghost use Rattle.dest_queue.specs.declared.SlotState.{SlotState};
ghost use Rattle.event_log.specs.History.{accepted_by, accepted_from, deployed_by, is_for, last_from, names, plan_after, state_by};
ghost use Rattle.event_log.specs.Answers.{brings, is_kept, keeps};
ghost use Rattle.sequential_book.specs.inner.Reading.{IsJudgeable, is_acceptance, is_deployment};

use dest_queue::{FailCause, SlotState};
use event_log::{EVENTS_MAX, Entry, Ticket, Told};
use hl7_head::Cause;
use judge_core::{Deliveries, Delivery, Judged, Text, Verdict, judge};
use plan_text::Plan;
use std::alloc::{AllocError, Global};
use std::sync::Arc;

/// Whether a ticket is for a message at d.
fn is_for(ticket: &Ticket, number: u32, d: u32) -> bool
    ensures { result ≡ is_for number d ticket.now }
{
    ticket.number == number && ticket.destination == d
}

/// Whether bit d of a mask is set.
pub(crate) fn has_bit(mask: u32, d: u32) -> bool
    ensures { result ≡ (bit_at mask d == 1) }
{
    d < u32::BITS && mask >> d & 1 == 1
}

/// The state in which an entry leaves the slot of a message at d, if it touches that slot.
fn state_by(entry: &Entry, number: u32, d: u32) -> Option<SlotState>
    ensures { result ≡ state_by number d entry.now }
{
    match entry {
        Entry::Take { ticket, .. } if is_for(ticket, number, d) => Some(SlotState::InFlight {
            attempt: ticket.attempt,
        }),
        Entry::Settle { ticket, state, .. } if is_for(ticket, number, d) => Some(state.get()),
        Entry::Cancel {
            number: cancelled,
            mask,
            ..
        } if *cancelled == number && has_bit(*mask, d) => {
            Some(SlotState::Failed(FailCause::Cancelled))
        }
        _ => None,
    }
}

/// The state of a message at d as the last entry that touches it leaves it; before, it waits for its first attempt.
pub(crate) fn state(entries: &[Entry], number: u32, d: u32) -> SlotState
    ensures { result ≡ last_from (SlotState.Waiting 0 0) (filter_map (state_by number d) entries.now) }
{
    let mut state = SlotState::Waiting {
        attempts: 0,
        due: 0,
    };
    for entry in entries {
        state = state_by(entry, number, d).unwrap_or(state);
    }
    state
}

/// Whether an entry is a deployment.
fn is_deployment(entry: &Entry) -> bool
    ensures { result ≡ is_deployment entry.now }
{
    matches!(entry, Entry::Deploy { .. })
}

/// How many plans were deployed.
pub(crate) fn deployments(entries: &[Entry]) -> usize
    ensures { result ≡ count_by is_deployment entries.now }
{
    entries.iter().filter(|entry| is_deployment(entry)).count()
}

/// The plan in force after an entry, where this one is in force before it.
fn plan_after<'a>(plan: &'a Arc<Plan>, entry: &'a Entry) -> &'a Arc<Plan>
    ensures { arc_value result.now ≡ plan_after (arc_value plan.now) entry.now }
{
    match entry {
        Entry::Deploy { plan } => plan.plan(),
        _ => plan,
    }
}

/// Whether an entry is the arrival of an accepted message.
fn is_acceptance(entry: &Entry) -> bool
    ensures { result ≡ is_acceptance entry.now }
{
    matches!(
        entry,
        Entry::Arrival {
            told: Told::Accepted(_),
            ..
        }
    )
}

/// How many arrivals of accepted messages there are.
pub(crate) fn acceptances(entries: &[Entry]) -> usize
    ensures { result ≡ count_by is_acceptance entries.now }
{
    entries.iter().filter(|entry| is_acceptance(entry)).count()
}

/// The plan in force after entries, where this one is in force before them.
pub(crate) fn in_force<'a>(plan: &'a Arc<Plan>, entries: &'a [Entry]) -> &'a Arc<Plan>
    ensures { arc_value result.now ≡ last_from (arc_value plan.now) (filter_map deployed_by entries.now) }
{
    let mut in_force = plan;
    for entry in entries {
        in_force = plan_after(in_force, entry);
    }
    in_force
}

/// The arrival of the message of this number, and the plan that was in force when it arrived.
fn acceptance<'a>(
    plan: &'a Arc<Plan>,
    entries: &'a [Entry],
    number: u32,
) -> Option<(&'a Arc<Plan>, &'a Entry)>
    requires { All (IsJudgeable (length (arc_value plan.now).channels)) entries.now }
    ensures brought { option_map_or (λ found. accepted_by (arc_value found.0.now) found.1.now) result None
        ≡ slice_get (accepted_from (arc_value plan.now) entries.now) number }
    ensures judgeable { IfSome result (λ found. IsJudgeable (length (arc_value found.0.now).channels) found.1.now) }
{
    let mut in_force = plan;
    let mut left = number;
    for entry in entries {
        let accepted = is_acceptance(entry);
        if accepted && left == 0 {
            return Some((in_force, entry));
        }
        left -= u32::from(accepted);
        in_force = plan_after(in_force, entry);
    }
    None
}

/// A text that arrived on a channel, judged again.
fn judged_again(
    alloc: Global,
    plan: &Arc<Plan>,
    channel: u32,
    raw: &Text,
) -> Result<Judged, AllocError>
    requires known { channel < length (arc_value plan.now).channels }
    requires fits { IsBlockData raw.now }
    ensures { IfOk result (λ judged. judged ≡ record { plan = arc_value plan.now; channel = channel; raw = raw.now }) }
{
    judge(
        alloc,
        plan,
        channel,
        Vec::from_slice(alloc, raw.as_slice())?,
    )
}

/// Where a verdict sends its message; nowhere where it isn't accepted.
fn deliveries_of(verdict: &Verdict) -> Result<Option<Deliveries>, AllocError>
    ensures { IfOk result (λ found. option_map_or (λ deliveries. deliveries) found [] ≡ deliveries_of verdict.now) }
{
    match verdict {
        Verdict::Accept(deliveries) => Ok(Some(deliveries.share()?)),
        Verdict::Unreadable | Verdict::Stray | Verdict::Refuse(_) | Verdict::Filtered => Ok(None),
    }
}

/// Where the message goes that an entry brings; nowhere where it brings none.
fn deliveries_by(
    alloc: Global,
    plan: &Arc<Plan>,
    entry: &Entry,
) -> Result<Option<Deliveries>, AllocError>
    requires { IsJudgeable (length (arc_value plan.now).channels) entry.now }
    ensures { IfOk result (λ found. option_map_or (λ deliveries. deliveries) found []
        ≡ option_map_or (λ message. message.deliveries) (accepted_by (arc_value plan.now) entry.now) []) }
{
    match entry {
        Entry::Arrival {
            channel,
            raw,
            told: Told::Accepted(_),
            ..
        } => deliveries_of(judged_again(alloc, plan, *channel, raw)?.verdict()),
        _ => Ok(None),
    }
}

/// Where the message of this number goes; nowhere where there is no such message.
pub(crate) fn deliveries(
    alloc: Global,
    plan: &Arc<Plan>,
    entries: &[Entry],
    number: u32,
) -> Result<Option<Deliveries>, AllocError>
    requires { All (IsJudgeable (length (arc_value plan.now).channels)) entries.now }
    ensures { IfOk result (λ found. option_map_or (λ deliveries. deliveries) found []
        ≡ option_map_or (λ message. message.deliveries) (slice_get (accepted_from (arc_value plan.now) entries.now) number) []) }
{
    match acceptance(plan, entries, number) {
        Some((in_force, entry)) => deliveries_by(alloc, in_force, entry),
        None => Ok(None),
    }
}

/// Whether deliveries name d.
pub(crate) fn names(deliveries: &[Delivery], d: u32) -> bool
    ensures { result ≡ names d deliveries.now }
{
    deliveries.iter().any(|x| x.destination == d)
}

/// Whether a message with this answer is kept by its key: it was accepted or filtered.
fn is_kept(told: Told) -> bool
    ensures { result ≡ is_kept told }
{
    matches!(told, Told::Accepted(_) | Told::Filtered)
}

/// Whether an entry is the arrival of a message with this key, answered Accepted or Filtered.
fn keeps(alloc: Global, plan: &Arc<Plan>, entry: &Entry, key: &[u8]) -> Result<bool, AllocError>
    requires { IsJudgeable (length (arc_value plan.now).channels) entry.now }
    ensures { IfOk result (λ kept. kept ≡ keeps key.now entry.now) }
{
    match entry {
        Entry::Arrival {
            channel,
            raw,
            told,
            ..
        } if is_kept(*told) => Ok(key == judged_again(alloc, plan, *channel, raw)?.key()),
        _ => Ok(false),
    }
}

/// The index of the arrival with this key, if one was accepted or filtered.
pub(crate) fn known(
    alloc: Global,
    plan: &Arc<Plan>,
    entries: &[Entry],
    key: &[u8],
) -> Result<Option<usize>, AllocError>
    requires { All (IsJudgeable (length (arc_value plan.now).channels)) entries.now }
    ensures { IfOk result (λ place. place ≡ position (keeps key.now) entries.now) }
{
    for (place, entry) in entries.iter().enumerate() {
        if keeps(alloc, plan, entry, key)? {
            return Ok(Some(place));
        }
    }
    Ok(None)
}

/// The answer to a message whose key is known by the entry at this index.
pub(crate) fn told_again(entries: &[Entry], raw: &[u8], place: usize) -> Told
    requires { length entries.now ≤ EVENTS_MAX }
    ensures { result
        ≡ (if option_map_or (brings raw.now) (slice_get entries.now place) false then Told.Repeat place else Told.Refused Cause.IdReused) }
{
    match entries.get(place) {
        Some(entry) if entry.brings(raw) => Told::Repeat(place as u32),
        _ => Told::Refused(Cause::IdReused),
    }
}
