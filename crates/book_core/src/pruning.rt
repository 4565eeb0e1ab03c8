//! Which messages may be forgotten, and what stays of a history where they are.

ghost use Rattle.std.specs.Prelude.{◌≡◌, ◌≤◌, ◌<◌, ◌+◌, [], ◌∷◌, ◌++◌, not, nat_lt, option_and_then, option_copied, All, IfOk, OnOk, filter, length, map};
ghost use Rattle.std.specs.List.{filter_map, range_with_len};
ghost use Rattle.row_store.specs.Rows.{item_at};
ghost use Rattle.stat_count.specs.inner.Statistics.{on_destination};
ghost use Rattle.event_log.specs.Answers.{is_kept};
ghost use Rattle.event_log.specs.Folding.{known_arrivals, prune_answer, recalled, recalled_from};
ghost use Rattle.event_log.specs.History.{History, entry_at, message_count, number_told};
ghost use Rattle.event_log.specs.inner.Legal.{IsSound};
ghost use Rattle.book_core.specs.inner.Parts.{RowsAgree};
ghost use Rattle.book_core.specs.inner.Pruning.{LeavesOut, left_out, lesser, since};

use crate::letter::{BookRows, Outbound};
use crate::questions::first_queued;
use dest_queue::{Queued, SlotState, Slots};
use event_log::{Entry, Log, PRUNINGS_MAX, PruneRefusal, Remembered, Told};
use judge_core::Text;
use stat_count::{Counts, DESTINATIONS};
use std::alloc::{AllocError, Global};

/// The lesser of two numbers, or the one that there is.
pub(crate) fn lesser(a: Option<u32>, b: Option<u32>) -> Option<u32>
    ensures { result ≡ lesser a b }
{
    match (a, b) {
        (Some(first), Some(second)) if second < first => b,
        (Some(_), _) => a,
        (None, _) => b,
    }
}

/// Why the messages below `before` aren't forgotten, before memory is requested.
pub(crate) fn prune_refusal<S: BookRows>(
    log: &Log,
    rows: &mut S,
    before: u32,
) -> Option<PruneRefusal>
    requires { RowsAgree log.now.history (S.rows rows.old) }
    ensures answer { result ≡ prune_answer log.now.history before }
    ensures unchanged { S.rows rows.new ≡ S.rows rows.old }
{
    if before > log.message_count() {
        return Some(PruneRefusal::NoSuchMessage);
    }
    match first_queued(rows) {
        Some(number) if number < before => Some(PruneRefusal::StillLive(number)),
        _ if log.prunings() < PRUNINGS_MAX => None,
        _ => Some(PruneRefusal::TooMany),
    }
}

/// The number of the first message that isn't forgotten, or of the next one where all are.
pub(crate) fn first_kept<S: BookRows>(log: &Log, rows: &S) -> u32
    requires sound { IsSound log.now.history }
    requires agree { RowsAgree log.now.history (S.rows rows.now) }
    ensures count { result + length (S.rows rows.now) ≡ message_count log.now.history }
    ensures first { All (λ row. result ≤ row.number) (S.rows rows.now) }
{
    log.message_count() - rows.len() as u32
}

/// Drops the rows of the messages below `before`, where none is below `first`.
pub(crate) fn forget_rows<S: BookRows>(rows: &mut S, first: u32, before: u32)
    requires { All (λ row. first ≤ row.number) (S.rows rows.old) }
    ensures { S.rows rows.new ≡ filter (λ row. not (nat_lt row.number before)) (S.rows rows.old) }
{
    for number in first..before {
        let _forgotten = rows.remove(number);
    }
}

/// Whether an arrival with this answer is kept by its key: it was accepted or filtered.
fn is_kept(told: Told) -> bool
    ensures { result ≡ is_kept told }
{
    matches!(told, Told::Accepted(_) | Told::Filtered)
}

/// What is kept of the message that was accepted with this reply, if it is such a reply and the message isn't forgotten.
fn message_told<S: BookRows>(rows: &S, told: Told) -> Option<&Queued<Outbound>>
    ensures { option_copied result ≡ option_and_then (λ number. item_at number (S.rows rows.now)) (number_told told) }
{
    match told {
        Told::Accepted(number) => rows.get(number),
        Told::Filtered | Told::Refused(_) | Told::Repeat(_) => None,
    }
}

/// An arrival as it is remembered from now on, with the deliveries and the slots of its message.
fn recall<S: BookRows>(
    alloc: Global,
    rows: &S,
    place: usize,
    channel: u32,
    raw: &Text,
    told: Told,
) -> Result<Remembered, AllocError>
    ensures { IfOk result (λ arrival. (h : History) → RowsAgree h (S.rows rows.now) → arrival ≡ recalled h place channel raw.now told) }
{
    let raw = raw.share()?;
    let Some(message) = message_told(rows, told) else {
        return Ok(Remembered::new(place, channel, raw, told, None, Slots::new(alloc)));
    };
    let deliveries = message.content.deliveries()?;
    let slots = message.slots.copy()?;
    Ok(Remembered::new(place, channel, raw, told, Some(deliveries), slots))
}

/// What is remembered from now on of the entry at an index: an arrival answered `Accepted` or `Filtered`.
fn recall_at<S: BookRows>(
    alloc: Global,
    log: &Log,
    rows: &S,
    place: usize,
) -> Result<Option<Remembered>, AllocError>
    requires { RowsAgree log.now.history (S.rows rows.now) }
    ensures { IfOk result (λ arrival. arrival ≡ option_and_then (recalled_from log.now.history place) (entry_at log.now.history place)) }
{
    match log.entry(place) {
        Some(
            Entry::Arrival {
                channel,
                raw,
                told,
                ..
            },
        ) if is_kept(*told) => Ok(Some(recall(alloc, rows, place, *channel, raw, *told)?)),
        _ => Ok(None),
    }
}

/// The arrivals remembered so far whose index is `floor` or a later one, as they are remembered from now on.
fn recall_remembered<S: BookRows>(
    alloc: Global,
    log: &Log,
    rows: &S,
    floor: usize,
) -> Result<Vec<Remembered>, AllocError>
    requires { RowsAgree log.now.history (S.rows rows.now) }
    ensures { IfOk result (λ kept. kept.items
        ≡ since floor (map (λ r. recalled log.now.history r.place r.channel r.raw r.told) log.now.history.opening.remembered)) }
{
    let mut kept = Vec::new(alloc);
    for arrival in log.remembered() {
        let place = arrival.place();
        if place >= floor {
            kept.push(recall(
                alloc,
                rows,
                place,
                arrival.channel(),
                arrival.raw(),
                arrival.told(),
            )?)?;
        }
    }
    Ok(kept)
}

/// Adds what is remembered from now on of the entries with the index `floor` or a later one.
fn recall_entries<S: BookRows>(
    alloc: Global,
    log: &Log,
    rows: &S,
    floor: usize,
    kept: &mut Vec<Remembered>,
) -> Result<(), AllocError>
    requires { RowsAgree log.now.history (S.rows rows.now) }
    ensures { OnOk result (kept.new.items ≡ kept.old.items ++ since floor
        (filter_map (λ place. option_and_then (recalled_from log.now.history place) (entry_at log.now.history place))
        (range_with_len log.now.history.opening.places (length log.now.history.entries)))) }
{
    for place in log.first_place()..log.len() {
        if place >= floor {
            if let Some(arrival) = recall_at(alloc, log, rows, place)? {
                kept.push(arrival)?;
            }
        }
    }
    Ok(())
}

/// The arrivals with the index `floor` or a later one, as they are remembered from now on, in order of index.
///
/// # Errors
///
/// Where memory is refused.
pub(crate) fn recall_since<S: BookRows>(
    alloc: Global,
    log: &Log,
    rows: &S,
    floor: usize,
) -> Result<Vec<Remembered>, AllocError>
    requires { RowsAgree log.now.history (S.rows rows.now) }
    ensures { IfOk result (λ kept. kept.items ≡ since floor (known_arrivals log.now.history)) }
{
    let mut kept = recall_remembered(alloc, log, rows, floor)?;
    recall_entries(alloc, log, rows, floor, &mut kept)?;
    Ok(kept)
}

/// Leaves a slot in this state out of the counters of its destination.
fn leave_slot_out(counts: &mut Counts, d: u32, state: SlotState)
    requires { d < DESTINATIONS }
    ensures { counts.new ≡ on_destination d (left_out state) counts.old }
{
    match state {
        SlotState::Waiting { .. } => counts.leave_out_waiting(d),
        SlotState::InFlight { .. } => counts.leave_out_inflight(d),
        SlotState::Delivered => counts.leave_out_delivered(d),
        SlotState::Failed(_) => counts.leave_out_failed(d),
    }
}

/// Leaves an arrival out of the counters of each destination where its message has a slot.
fn leave_out(counts: &mut Counts, arrival: &Remembered)
    requires { length counts.old.destinations ≡ 32 }
    ensures { LeavesOut (arrival.now ∷ []) counts.old counts.new }
{
    let slots = arrival.slots();
    for d in 0..DESTINATIONS {
        if let Some(state) = slots.state_at(d) {
            leave_slot_out(counts, d, state);
        }
    }
}

/// What is counted and isn't remembered: a tally without the arrivals that are.
pub(crate) fn unremembered(counts: &Counts, remembered: &[Remembered]) -> Counts
    requires { length counts.now.destinations ≡ 32 }
    ensures { LeavesOut remembered.now counts.now result }
{
    let mut left = *counts;
    for arrival in remembered {
        leave_out(&mut left, arrival);
    }
    left
}
