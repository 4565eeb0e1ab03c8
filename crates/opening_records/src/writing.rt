//! An opening is encoded.

ghost use Rattle.std.specs.Prelude.{◌≡◌, ◌<◌, ◌^◌, ◌∷◌, ◌++◌, ℕ, All, IfErr, OnOk, length};
ghost use Rattle.std.specs.List.{AllByRecursion, list_any};
ghost use Rattle.std.specs.Int.{w32, w64, to_be_bytes};
ghost use Rattle.judge_core.specs.inner.Delivering.{AreDeliveries};
ghost use Rattle.opening_records.specs.declared.fault.OpeningFault.TheVariants.{TooLong};
ghost use Rattle.opening_records.specs.inner.Encoding.{arrival_bytes, cause_number, channel_bytes, channel_numbers, delivery_bytes, destination_bytes, destination_numbers, flag_of, head_bytes, numbers_bytes, opening_bytes, own_text, remembered_bytes, several, slot_bytes, state_due, state_kind, state_number};
ghost use Rattle.opening_records.specs.inner.Openings.{AreWide, Fits, IsAppended, IsDeliveryOf, IsHead, IsRemembered, IsSlot, IsTooLong, head_of, with_bound, written};
ghost use Rattle.opening_records.specs.inner.Lengths.{has_long, is_long, is_too_long};
ghost use Rattle.event_records.specs.inner.Encoding.{text_bytes};
ghost use Rattle.event_records.specs.inner.Fields.{told_number};

use crate::fault::OpeningFault;
use crate::head::Head;
use dest_queue::{FailCause, Slot, SlotState};
use event_log::{Remembered, Snapshot};
use event_records::told_parts;
use judge_core::{Delivery, offset_32};
use stat_count::{ChannelCounts, DestinationCounts};
use std::alloc::AllocError;

/// Appends a text behind its length.
fn put_text(out: &mut Vec<u8>, text: &[u8]) -> Result<(), AllocError>
    ensures bytes { OnOk result (out.new.items ≡ out.old.items ++ text_bytes text.now) }
    ensures fits { OnOk result (length text.now < 2 ^ 32) }
{
    let len = offset_32(text.len())?;
    out.extend_from_slice(&len.to_be_bytes())?;
    out.extend_from_slice(text)?;
    Ok(())
}

/// Appends how many elements a list has.
fn put_count(out: &mut Vec<u8>, count: usize) -> Result<(), AllocError>
    ensures bytes { OnOk result (out.new.items ≡ out.old.items ++ to_be_bytes w32 count) }
    ensures fits { OnOk result (count < 2 ^ 32) }
{
    let count = offset_32(count)?;
    out.extend_from_slice(&count.to_be_bytes())?;
    Ok(())
}

/// Appends numbers of eight bytes.
fn put_numbers(out: &mut Vec<u8>, numbers: &[u64]) -> Result<(), AllocError>
    ensures { OnOk result (out.new.items ≡ out.old.items ++ numbers_bytes numbers.now) }
{
    for number in numbers {
        out.extend_from_slice(&number.to_be_bytes())?;
    }
    Ok(())
}

/// Appends the format, the bound, how many entries were folded and how many messages were accepted.
fn put_front(
    out: &mut Vec<u8>,
    events_max: u32,
    places: u64,
    messages: u32,
) -> Result<(), AllocError>
    ensures { OnOk result (out.new.items ≡ out.old.items
        ++ 1 ∷ to_be_bytes w32 events_max ++ to_be_bytes w64 places ++ to_be_bytes w32 messages) }
{
    out.push(1)?;
    out.extend_from_slice(&events_max.to_be_bytes())?;
    out.extend_from_slice(&places.to_be_bytes())?;
    out.extend_from_slice(&messages.to_be_bytes())?;
    Ok(())
}

/// Appends how many plans were deployed and prunings made.
fn put_back(out: &mut Vec<u8>, deployments: u32, prunings: u32) -> Result<(), AllocError>
    ensures { OnOk result (out.new.items ≡ out.old.items
        ++ (to_be_bytes w32 deployments ++ to_be_bytes w32 prunings)) }
{
    out.extend_from_slice(&deployments.to_be_bytes())?;
    out.extend_from_slice(&prunings.to_be_bytes())?;
    Ok(())
}

/// Appends the format and the numbers of an opening.
#[tactic(auto, unfolding(crate::specs::inner::Encoding::head_bytes))]
fn put_head(out: &mut Vec<u8>, head: Head) -> Result<(), AllocError>
    ensures bytes { OnOk result (out.new.items ≡ out.old.items ++ head_bytes head) }
    ensures fits { IsHead head }
{
    put_front(out, head.events_max, head.places, head.messages)?;
    put_back(out, head.deployments, head.prunings)?;
    Ok(())
}

/// Appends the counters of a channel.
#[tactic(auto, unfolding(crate::specs::inner::Encoding::channel_bytes))]
fn put_channel(out: &mut Vec<u8>, counts: ChannelCounts) -> Result<(), AllocError>
    ensures bytes { OnOk result (out.new.items ≡ out.old.items ++ channel_bytes counts) }
    ensures fits { AreWide (channel_numbers counts) }
{
    let numbers = [
        counts.received,
        counts.filtered,
        counts.accepted,
        counts.refused,
        counts.repeats,
    ];
    put_numbers(out, &numbers)
}

/// Appends the counters of a destination.
#[tactic(auto, unfolding(crate::specs::inner::Encoding::destination_bytes))]
fn put_destination(out: &mut Vec<u8>, counts: DestinationCounts) -> Result<(), AllocError>
    ensures bytes { OnOk result (out.new.items ≡ out.old.items ++ destination_bytes counts) }
    ensures fits { AreWide (destination_numbers counts) }
{
    let numbers = [
        counts.waiting,
        counts.inflight,
        counts.delivered,
        counts.failed,
        counts.attempts,
    ];
    put_numbers(out, &numbers)
}

/// Appends the counters of channels behind their count.
fn put_channels(out: &mut Vec<u8>, items: &[ChannelCounts]) -> Result<(), AllocError>
    ensures bytes { OnOk result (out.new.items ≡ out.old.items ++ several channel_bytes items.now) }
    ensures few { OnOk result (length items.now < 2 ^ 32) }
    ensures fits { OnOk result (AllByRecursion (λ c. AreWide (channel_numbers c)) items.now) }
{
    put_count(out, items.len())?;
    for item in items {
        put_channel(out, *item)?;
    }
    Ok(())
}

/// Appends the counters of destinations behind their count.
fn put_destinations(out: &mut Vec<u8>, items: &[DestinationCounts]) -> Result<(), AllocError>
    ensures bytes { OnOk result (out.new.items ≡ out.old.items ++ several destination_bytes items.now) }
    ensures few { OnOk result (length items.now < 2 ^ 32) }
    ensures fits { OnOk result (AllByRecursion (λ c. AreWide (destination_numbers c)) items.now) }
{
    put_count(out, items.len())?;
    for item in items {
        put_destination(out, *item)?;
    }
    Ok(())
}

/// A cause as a number.
fn cause_number(cause: FailCause) -> u32
    ensures { result ≡ cause_number cause }
{
    match cause {
        FailCause::Rejected => 0,
        FailCause::Exhausted => 1,
        FailCause::Cancelled => 2,
    }
}

/// A state as a kind, a number and a moment.
pub(crate) fn state_parts(state: SlotState) -> (u8, u32, u64)
    ensures { result ≡ (state_kind state, state_number state, state_due state) }
{
    match state {
        SlotState::Waiting { attempts, due } => (0, attempts, due),
        SlotState::InFlight { attempt } => (1, attempt, 0),
        SlotState::Delivered => (2, 0, 0),
        SlotState::Failed(cause) => (3, cause_number(cause), 0),
    }
}

/// Appends the fields of a slot.
fn put_fields(
    out: &mut Vec<u8>,
    kind: u8,
    destination: u32,
    number: u32,
    due: u64,
) -> Result<(), AllocError>
    ensures { OnOk result (out.new.items ≡ out.old.items
        ++ kind ∷ to_be_bytes w32 destination ++ to_be_bytes w32 number ++ to_be_bytes w64 due) }
{
    out.push(kind)?;
    out.extend_from_slice(&destination.to_be_bytes())?;
    out.extend_from_slice(&number.to_be_bytes())?;
    out.extend_from_slice(&due.to_be_bytes())?;
    Ok(())
}

/// Appends a slot of one of 32 destinations.
#[tactic(auto, unfolding(crate::specs::inner::Encoding::slot_bytes))]
fn put_slot(out: &mut Vec<u8>, slot: Slot) -> Result<(), AllocError>
    requires { slot.destination < 32 }
    ensures bytes { OnOk result (out.new.items ≡ out.old.items ++ slot_bytes slot) }
    ensures fits { IsSlot slot }
{
    let (kind, number, due) = state_parts(slot.state);
    put_fields(out, kind, slot.destination, number, due)
}

/// Appends slots of 32 destinations behind their count.
fn put_slots(out: &mut Vec<u8>, items: &[Slot]) -> Result<(), AllocError>
    requires { All (λ slot. slot.destination < 32) items.now }
    ensures bytes { OnOk result (out.new.items ≡ out.old.items ++ several slot_bytes items.now) }
    ensures few { OnOk result (length items.now < 2 ^ 32) }
    ensures fits { OnOk result (AllByRecursion IsSlot items.now) }
{
    put_count(out, items.len())?;
    for item in items {
        put_slot(out, *item)?;
    }
    Ok(())
}

/// The flag and the text that are written of a delivery.
fn payload_parts<'a>(raw: &[u8], payload: &'a [u8]) -> (u8, &'a [u8])
    ensures flag { result.0 ≡ flag_of raw.now payload.now }
    ensures text { result.1.now ≡ own_text raw.now payload.now }
{
    if payload == raw {
        (1, &[])
    } else {
        (0, payload)
    }
}

/// Appends a delivery of a message of these bytes. A text that is the one received is written as a flag alone.
#[tactic(auto, unfolding(crate::specs::inner::Encoding::delivery_bytes))]
fn put_delivery(out: &mut Vec<u8>, raw: &[u8], item: &Delivery) -> Result<(), AllocError>
    ensures bytes { OnOk result (out.new.items ≡ out.old.items ++ delivery_bytes raw.now item.now) }
    ensures fits { OnOk result (IsDeliveryOf raw.now item.now) }
{
    let (flag, text) = payload_parts(raw, item.payload.as_slice());
    let len = offset_32(text.len())?;
    out.push(flag)?;
    out.extend_from_slice(&item.destination.to_be_bytes())?;
    out.extend_from_slice(&len.to_be_bytes())?;
    out.extend_from_slice(text)?;
    Ok(())
}

/// Appends the deliveries of a message of these bytes behind their count.
fn put_deliveries(out: &mut Vec<u8>, raw: &[u8], items: &[Delivery]) -> Result<(), AllocError>
    ensures bytes { OnOk result (out.new.items ≡ out.old.items ++ several (delivery_bytes raw.now) items.now) }
    ensures few { OnOk result (length items.now < 2 ^ 32) }
    ensures fits { OnOk result (AllByRecursion (IsDeliveryOf raw.now) items.now) }
{
    put_count(out, items.len())?;
    for item in items {
        put_delivery(out, raw, item)?;
    }
    Ok(())
}

/// The deliveries of a remembered arrival.
pub(crate) fn deliveries_of(item: &Remembered) -> &[Delivery]
    ensures value { result.now ≡ item.now.deliveries }
    ensures goes { AreDeliveries result.now }
{
    match item.deliveries() {
        Some(deliveries) => deliveries.as_slice(),
        None => &[],
    }
}

/// Appends the fields of an answer, an index and a channel.
fn put_answer(
    out: &mut Vec<u8>,
    kind: u8,
    number: u32,
    place: u64,
    channel: u32,
) -> Result<(), AllocError>
    ensures { OnOk result (out.new.items ≡ out.old.items
        ++ kind ∷ to_be_bytes w32 number ++ to_be_bytes w64 place ++ to_be_bytes w32 channel) }
{
    out.push(kind)?;
    out.extend_from_slice(&number.to_be_bytes())?;
    out.extend_from_slice(&place.to_be_bytes())?;
    out.extend_from_slice(&channel.to_be_bytes())?;
    Ok(())
}

/// Appends the answer to a remembered arrival, its index and its channel.
#[tactic(auto, unfolding(crate::specs::inner::Encoding::arrival_bytes))]
fn put_arrival(out: &mut Vec<u8>, item: &Remembered) -> Result<(), AllocError>
    ensures bytes { OnOk result (out.new.items ≡ out.old.items ++ arrival_bytes item.now) }
    ensures number { told_number item.now.told < 2 ^ 32 }
    ensures place { item.now.place < 2 ^ 64 }
    ensures channel { item.now.channel < 2 ^ 32 }
{
    let (kind, number) = told_parts(item.told());
    put_answer(out, kind, number, item.place() as u64, item.channel())
}

/// Appends a remembered arrival.
#[tactic(auto, unfolding(crate::specs::inner::Encoding::remembered_bytes), using(crate::proofs::Joined::four))]
fn put_remembered(out: &mut Vec<u8>, item: &Remembered) -> Result<(), AllocError>
    ensures bytes { OnOk result (out.new.items ≡ out.old.items ++ remembered_bytes item.now) }
    ensures fits { OnOk result (IsRemembered item.now) }
{
    let raw = item.raw().as_slice();
    let slots = item.slots().to_vec()?;
    put_arrival(out, item)?;
    put_text(out, raw)?;
    put_deliveries(out, raw, deliveries_of(item))?;
    put_slots(out, &slots)?;
    Ok(())
}

/// Appends remembered arrivals behind their count.
fn put_all(out: &mut Vec<u8>, items: &[Remembered]) -> Result<(), AllocError>
    ensures bytes { OnOk result (out.new.items ≡ out.old.items ++ several remembered_bytes items.now) }
    ensures few { OnOk result (length items.now < 2 ^ 32) }
    ensures fits { OnOk result (AllByRecursion IsRemembered items.now) }
{
    put_count(out, items.len())?;
    for item in items {
        put_remembered(out, item)?;
    }
    Ok(())
}

/// The numbers of an opening, with this bound of its entries.
fn head_of(opening: &Snapshot, events_max: u32) -> Head
    ensures { result ≡ head_of (with_bound events_max opening.now) }
{
    Head {
        events_max,
        places: opening.places() as u64,
        messages: opening.messages(),
        deployments: opening.deployments(),
        prunings: opening.prunings(),
    }
}

/// Appends an opening, with this document of its plan and this bound of its entries.
#[tactic(auto, unfolding(crate::specs::inner::Encoding::opening_bytes), using(crate::proofs::Joined::five))]
fn put_written(
    out: &mut Vec<u8>,
    document: &[u8],
    opening: &Snapshot,
    events_max: u32,
) -> Result<(), AllocError>
    ensures bytes { OnOk result (out.new.items
        ≡ out.old.items ++ opening_bytes (written document.now (with_bound events_max opening.now))) }
    ensures fits { OnOk result (Fits (written document.now (with_bound events_max opening.now))) }
{
    put_head(out, head_of(opening, events_max))?;
    put_text(out, document)?;
    put_channels(out, opening.forgotten().channels())?;
    put_destinations(out, opening.forgotten().destinations())?;
    put_all(out, opening.remembered())?;
    Ok(())
}

/// Whether the text that is written of a delivery of a message of these bytes is too long.
fn is_long_delivery(raw: &[u8], item: &Delivery) -> bool
    ensures { result ≡ is_long (length (own_text raw.now item.now.payload)) }
{
    let (_, text) = payload_parts(raw, item.payload.as_slice());
    is_long(text.len())
}

/// Whether the text that is written of one of the deliveries of a message of these bytes is too long.
fn any_is_long(raw: &[u8], items: &[Delivery]) -> bool
    ensures { result ≡ list_any (λ x. is_long (length (own_text raw.now x.payload))) items.now }
{
    items.iter().any(|item| is_long_delivery(raw, item))
}

/// Whether a text of an arrival is too long to be written.
fn has_long(item: &Remembered) -> bool
    ensures { result ≡ has_long item.now }
{
    let raw = item.raw().as_slice();
    is_long(raw.len()) || any_is_long(raw, deliveries_of(item))
}

/// Whether a length needs more than four bytes.
fn is_long(len: usize) -> bool
    ensures { result ≡ is_long len }
{
    len >= 4294967296
}

/// Whether a text of one of these arrivals is too long to be written.
fn any_has_long(items: &[Remembered]) -> bool
    ensures { result ≡ list_any has_long items.now }
{
    items.iter().any(|item| has_long(item))
}

/// Whether a text of an opening is too long to be written, or there are too many arrivals.
fn is_too_long(document: &[u8], opening: &Snapshot) -> bool
    ensures { result ≡ is_too_long (written document.now opening.now) }
{
    let remembered = opening.remembered();
    is_long(document.len()) || is_long(remembered.len()) || any_has_long(remembered)
}

/// Why an opening was not written, whatever the bound of its entries.
fn fault_of(document: &[u8], opening: &Snapshot) -> OpeningFault
    ensures { result ≡ TooLong → (bound : ℕ) → ¬ (Fits (written document.now (with_bound bound opening.now))) }
{
    if is_too_long(document, opening) {
        OpeningFault::TooLong
    } else {
        OpeningFault::NoMemory
    }
}

/// Appends an opening, with this bound of its entries in place of its own.
///
/// # Errors
///
/// `NoMemory`, or `TooLong` where a text has 4 GiB or more, or there are 2^32 arrivals or more. A part of the opening may have
/// been appended then.
pub fn put_opening(
    out: &mut Vec<u8>,
    opening: &Snapshot,
    events_max: u32,
) -> Result<(), OpeningFault>
    ensures written { OnOk result (IsAppended (with_bound events_max opening.now) out.old.items out.new.items) }
    ensures too_long { IfErr result (λ fault. fault ≡ TooLong → IsTooLong (with_bound events_max opening.now)) }
{
    let document = opening.plan().document();
    match put_written(out, document, opening, events_max) {
        Ok(()) => Ok(()),
        Err(_) => Err(fault_of(document, opening)),
    }
}
