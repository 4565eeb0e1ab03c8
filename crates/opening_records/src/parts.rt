//! The parts of an opening are decoded.

ghost use Rattle.std.specs.Prelude.{◌≡◌, ◌<◌, [], IfOk, true};
ghost use Rattle.std.specs.Option.{option_map_or};
ghost use Rattle.event_records.specs.inner.Decoding.{Gives};
ghost use Rattle.opening_records.specs.inner.Decoding.{answer_of, are_deliveries, byte_at, cause_at, channel_at, deliveries_at, delivery_at, destination_at, head_at, many_at, numbers_at, payload_of, remembered_at, several_at, slot_at, slot_of, state_of};

use crate::checks::are_deliveries;
use crate::head::Head;
use crate::writing::state_parts;
use dest_queue::{FailCause, Slot, SlotState, Slots};
use event_log::{Remembered, Told};
use event_records::{ReadError, RecordFault, text_at, told_of, told_parts, u32_at, u64_at};
use judge_core::{Deliveries, Delivery, Text};
use stat_count::{ChannelCounts, DestinationCounts};
use std::alloc::{AllocError, Global};

/// A byte, and the bytes behind it.
#[tactic(auto, unfolding(crate::specs::inner::Decoding::byte_at))]
fn u8_at(bytes: &[u8]) -> Result<(u8, &[u8]), ReadError>
    ensures { Gives (λ x. (x.0, x.1.now)) result (byte_at bytes.now) }
{
    match bytes {
        [] => Err(ReadError::Fault(RecordFault::Truncated)),
        [byte, rest @ ..] => Ok((*byte, rest)),
    }
}

/// The numbers of an opening, and the bytes behind them.
#[tactic(auto, unfolding(crate::specs::inner::Decoding::numbers_at))]
fn numbers_at(bytes: &[u8]) -> Result<(Head, &[u8]), ReadError>
    ensures { Gives (λ x. (x.0, x.1.now)) result (numbers_at bytes.now) }
{
    let (events_max, rest) = u32_at(bytes)?;
    let (places, rest) = u64_at(rest)?;
    let (messages, rest) = u32_at(rest)?;
    let (deployments, rest) = u32_at(rest)?;
    let (prunings, rest) = u32_at(rest)?;
    let head = Head {
        events_max,
        places,
        messages,
        deployments,
        prunings,
    };
    Ok((head, rest))
}

/// The numbers of an opening behind the number of the format, and the bytes behind them.
#[tactic(auto, unfolding(crate::specs::inner::Decoding::head_at))]
pub(crate) fn head_at(bytes: &[u8]) -> Result<(Head, &[u8]), ReadError>
    ensures { Gives (λ x. (x.0, x.1.now)) result (head_at bytes.now) }
{
    let (format, rest) = u8_at(bytes)?;
    if format == 1 {
        numbers_at(rest)
    } else {
        Err(ReadError::Fault(RecordFault::Unknown))
    }
}

/// The counters of a channel, and the bytes behind them.
#[tactic(auto, unfolding(crate::specs::inner::Decoding::channel_at))]
fn channel_at(bytes: &[u8]) -> Result<(ChannelCounts, &[u8]), ReadError>
    ensures { Gives (λ x. (x.0, x.1.now)) result (channel_at bytes.now) }
{
    let (received, rest) = u64_at(bytes)?;
    let (filtered, rest) = u64_at(rest)?;
    let (accepted, rest) = u64_at(rest)?;
    let (refused, rest) = u64_at(rest)?;
    let (repeats, rest) = u64_at(rest)?;
    let counts = ChannelCounts {
        received,
        filtered,
        accepted,
        refused,
        repeats,
    };
    Ok((counts, rest))
}

/// The counters of a destination, and the bytes behind them.
#[tactic(auto, unfolding(crate::specs::inner::Decoding::destination_at))]
fn destination_at(bytes: &[u8]) -> Result<(DestinationCounts, &[u8]), ReadError>
    ensures { Gives (λ x. (x.0, x.1.now)) result (destination_at bytes.now) }
{
    let (waiting, rest) = u64_at(bytes)?;
    let (inflight, rest) = u64_at(rest)?;
    let (delivered, rest) = u64_at(rest)?;
    let (failed, rest) = u64_at(rest)?;
    let (attempts, rest) = u64_at(rest)?;
    let counts = DestinationCounts {
        waiting,
        inflight,
        delivered,
        failed,
        attempts,
    };
    Ok((counts, rest))
}

/// This number of channels' counters, and the bytes behind them.
fn channels_of(
    alloc: Global,
    count: u32,
    bytes: &[u8],
) -> Result<(Vec<ChannelCounts>, &[u8]), ReadError>
    ensures { Gives (λ x. (x.0.items, x.1.now)) result (many_at channel_at count bytes.now) }
{
    let mut items = Vec::new(alloc);
    let mut rest = bytes;
    for _ in 0..count {
        let (item, after) = channel_at(rest)?;
        items.push(item)?;
        rest = after;
    }
    Ok((items, rest))
}

/// The counters of channels behind their count, and the bytes behind them.
pub(crate) fn channels_at(
    alloc: Global,
    bytes: &[u8],
) -> Result<(Vec<ChannelCounts>, &[u8]), ReadError>
    ensures { Gives (λ x. (x.0.items, x.1.now)) result (several_at channel_at bytes.now) }
{
    let (count, rest) = u32_at(bytes)?;
    channels_of(alloc, count, rest)
}

/// This number of destinations' counters, and the bytes behind them.
fn destinations_of(
    alloc: Global,
    count: u32,
    bytes: &[u8],
) -> Result<(Vec<DestinationCounts>, &[u8]), ReadError>
    ensures { Gives (λ x. (x.0.items, x.1.now)) result (many_at destination_at count bytes.now) }
{
    let mut items = Vec::new(alloc);
    let mut rest = bytes;
    for _ in 0..count {
        let (item, after) = destination_at(rest)?;
        items.push(item)?;
        rest = after;
    }
    Ok((items, rest))
}

/// The counters of destinations behind their count, and the bytes behind them.
pub(crate) fn destinations_at(
    alloc: Global,
    bytes: &[u8],
) -> Result<(Vec<DestinationCounts>, &[u8]), ReadError>
    ensures { Gives (λ x. (x.0.items, x.1.now)) result (several_at destination_at bytes.now) }
{
    let (count, rest) = u32_at(bytes)?;
    destinations_of(alloc, count, rest)
}

/// The cause of this number.
#[tactic(auto, unfolding(crate::specs::inner::Decoding::cause_at))]
fn cause_of(number: u32) -> Result<FailCause, ReadError>
    ensures { Gives (λ x. x) result (cause_at number) }
{
    match number {
        0 => Ok(FailCause::Rejected),
        1 => Ok(FailCause::Exhausted),
        2 => Ok(FailCause::Cancelled),
        _ => Err(ReadError::Fault(RecordFault::Unknown)),
    }
}

/// The state of this kind, number and moment.
#[tactic(auto, unfolding(crate::specs::inner::Decoding::state_of))]
fn state_of(kind: u8, number: u32, due: u64) -> Result<SlotState, ReadError>
    ensures { Gives (λ x. x) result (state_of kind number due) }
{
    match kind {
        0 => Ok(SlotState::Waiting {
            attempts: number,
            due,
        }),
        1 => Ok(SlotState::InFlight { attempt: number }),
        2 => Ok(SlotState::Delivered),
        3 => Ok(SlotState::Failed(cause_of(number)?)),
        _ => Err(ReadError::Fault(RecordFault::Unknown)),
    }
}

/// The slot of a destination whose state has just this kind, number and moment.
#[tactic(auto, unfolding(crate::specs::inner::Decoding::slot_of))]
fn slot_of(destination: u32, kind: u8, number: u32, due: u64) -> Result<Slot, ReadError>
    ensures gives { Gives (λ x. x) result (slot_of destination kind number due) }
    ensures within { IfOk result (λ slot. slot.destination < 32) }
{
    let state = state_of(kind, number, due)?;
    let (own_kind, own_number, own_due) = state_parts(state);
    if destination < 32 && own_kind == kind && own_number == number && own_due == due {
        Ok(Slot { destination, state })
    } else {
        Err(ReadError::Fault(RecordFault::Unknown))
    }
}

/// A slot, and the bytes behind it.
#[tactic(auto, unfolding(crate::specs::inner::Decoding::slot_at))]
fn slot_at(bytes: &[u8]) -> Result<(Slot, &[u8]), ReadError>
    ensures gives { Gives (λ x. (x.0, x.1.now)) result (slot_at bytes.now) }
    ensures within { IfOk result (λ x. x.0.destination < 32) }
{
    let (kind, rest) = u8_at(bytes)?;
    let (destination, rest) = u32_at(rest)?;
    let (number, rest) = u32_at(rest)?;
    let (due, rest) = u64_at(rest)?;
    Ok((slot_of(destination, kind, number, due)?, rest))
}

/// This number of slots, and the bytes behind them.
fn slots_of(alloc: Global, count: u32, bytes: &[u8]) -> Result<(Slots, &[u8]), ReadError>
    ensures { Gives (λ x. (x.0, x.1.now)) result (many_at slot_at count bytes.now) }
{
    let mut slots = Slots::new(alloc);
    let mut rest = bytes;
    for _ in 0..count {
        let (slot, after) = slot_at(rest)?;
        slots.push(slot)?;
        rest = after;
    }
    Ok((slots, rest))
}

/// The slots behind their count, and the bytes behind them.
fn slots_at(alloc: Global, bytes: &[u8]) -> Result<(Slots, &[u8]), ReadError>
    ensures { Gives (λ x. (x.0, x.1.now)) result (several_at slot_at bytes.now) }
{
    let (count, rest) = u32_at(bytes)?;
    slots_of(alloc, count, rest)
}

/// The text of a delivery of a message of these bytes, by its flag and the text that is written. One that was received is
/// shared, and not made again.
#[tactic(auto, unfolding(crate::specs::inner::Decoding::payload_of))]
fn payload_of(alloc: Global, raw: &Text, flag: u8, text: &[u8]) -> Result<Text, ReadError>
    ensures { Gives (λ x. x) result (payload_of raw.now flag text.now) }
{
    match flag {
        0 if text != raw.as_slice() => Ok(Text::new(alloc, Vec::from_slice(alloc, text)?)?),
        1 if text.is_empty() => Ok(raw.share()?),
        _ => Err(ReadError::Fault(RecordFault::Unknown)),
    }
}

/// A delivery of a message of these bytes, and the bytes behind it.
#[tactic(auto, unfolding(crate::specs::inner::Decoding::delivery_at))]
fn delivery_at<'a>(
    alloc: Global,
    raw: &Text,
    bytes: &'a [u8],
) -> Result<(Delivery, &'a [u8]), ReadError>
    ensures { Gives (λ x. (x.0, x.1.now)) result (delivery_at raw.now bytes.now) }
{
    let (flag, rest) = u8_at(bytes)?;
    let (destination, rest) = u32_at(rest)?;
    let (text, rest) = text_at(rest)?;
    let payload = payload_of(alloc, raw, flag, text)?;
    let delivery = Delivery {
        destination,
        payload,
    };
    Ok((delivery, rest))
}

/// This number of deliveries of a message of these bytes, and the bytes behind them.
fn deliveries_of<'a>(
    alloc: Global,
    raw: &Text,
    count: u32,
    bytes: &'a [u8],
) -> Result<(Vec<Delivery>, &'a [u8]), ReadError>
    ensures { Gives (λ x. (x.0.items, x.1.now)) result (many_at (λ rest. delivery_at raw.now rest) count bytes.now) }
{
    let mut items = Vec::new(alloc);
    let mut rest = bytes;
    for _ in 0..count {
        let (item, after) = delivery_at(alloc, raw, rest)?;
        items.push(item)?;
        rest = after;
    }
    Ok((items, rest))
}

/// The deliveries of a message of these bytes behind their count, and the bytes behind them.
#[tactic(auto, unfolding(crate::specs::inner::Decoding::deliveries_at))]
fn deliveries_at<'a>(
    alloc: Global,
    raw: &Text,
    bytes: &'a [u8],
) -> Result<(Vec<Delivery>, &'a [u8]), ReadError>
    ensures gives { Gives (λ x. (x.0.items, x.1.now)) result (deliveries_at raw.now bytes.now) }
    ensures good { IfOk result (λ x. are_deliveries x.0.items ≡ true) }
{
    let (count, rest) = u32_at(bytes)?;
    let (items, rest) = deliveries_of(alloc, raw, count, rest)?;
    if are_deliveries(&items) {
        Ok((items, rest))
    } else {
        Err(ReadError::Fault(RecordFault::Unknown))
    }
}

/// Deliveries as an arrival that is remembered has them: none where it goes nowhere.
#[tactic(auto, using(crate::proofs::Deliveries::deliveries_good))]
pub(crate) fn kept(alloc: Global, items: Vec<Delivery>) -> Result<Option<Deliveries>, AllocError>
    requires { are_deliveries items.items ≡ true }
    ensures { IfOk result (λ kept. option_map_or (λ ds. ds) kept [] ≡ items.items) }
{
    if items.is_empty() {
        return Ok(None);
    }
    Ok(Some(Deliveries::of(alloc, items)?))
}

/// The answer of just this kind and number.
#[tactic(auto, unfolding(crate::specs::inner::Decoding::answer_of))]
fn answer_of(kind: u8, number: u32) -> Result<Told, ReadError>
    ensures { Gives (λ x. x) result (answer_of kind number) }
{
    let told = told_of(kind, number)?;
    let (own_kind, own_number) = told_parts(told);
    if own_kind == kind && own_number == number {
        Ok(told)
    } else {
        Err(ReadError::Fault(RecordFault::Unknown))
    }
}

/// A remembered arrival, and the bytes behind it.
#[tactic(auto, unfolding(crate::specs::inner::Decoding::remembered_at))]
pub(crate) fn remembered_at(alloc: Global, bytes: &[u8]) -> Result<(Remembered, &[u8]), ReadError>
    ensures { Gives (λ x. (x.0, x.1.now)) result (remembered_at bytes.now) }
{
    let (kind, rest) = u8_at(bytes)?;
    let (number, rest) = u32_at(rest)?;
    let told = answer_of(kind, number)?;
    let (place, rest) = u64_at(rest)?;
    let (channel, rest) = u32_at(rest)?;
    let (text, rest) = text_at(rest)?;
    let raw = Text::new(alloc, Vec::from_slice(alloc, text)?)?;
    let (items, rest) = deliveries_at(alloc, &raw, rest)?;
    let (slots, rest) = slots_at(alloc, rest)?;
    let deliveries = kept(alloc, items)?;
    let remembered = Remembered::new(place as usize, channel, raw, told, deliveries, slots);
    Ok((remembered, rest))
}
