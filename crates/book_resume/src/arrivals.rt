//! The rows and the keys of the arrivals that are remembered.

ghost use Rattle.std.specs.Prelude.{◌≡◌, ◌<◌, ◌==◌, ◌&&◌, ◌∷◌, ◌++◌, ℕ, [], None, Some, All, IfOk, IfSome, IsErrOf, OnOk, length, map, nat_le, not};
ghost use Rattle.std.specs.Int.{bit_at};
ghost use Rattle.std.specs.List.{filter_map};
ghost use Rattle.std.specs.List.Sorted.{IsStrictlyIncreasing};
ghost use Rattle.dup_index.specs.inner.Known.{place_of};
ghost use Rattle.hl7_head.specs.Header.{header_of as header_in};
ghost use Rattle.judge_core.specs.Judging.{is_acknowledgment, key_by, key_of};
ghost use Rattle.event_log.specs.inner.History.{number_of};
ghost use Rattle.book_resume.specs.declared.fault.ResumeFault.TheVariants.{NotGood};
ghost use Rattle.book_resume.specs.inner.Resuming.{IsMessage};
ghost use Rattle.book_resume.specs.inner.Keys.{AreApart, known_as};
ghost use Rattle.book_resume.specs.inner.Rows.{AddsNumbered, AreRowsOf, HasRoomFor, lives_at};

use crate::fault::ResumeFault;
use book_core::{BookRows, Outbound};
use dest_queue::{Queued, Slots};
use dup_index::{Key, Keys, KnownKey};
use er7_tree::{Message, Refusal};
use event_log::{PLACES_MAX, Remembered, Told};
use fixed_numbers::{CHANNELS, CONTROL_ID_MAX};
use hl7_head::Header;
use judge_core::{Deliveries, Text, offset_32};
use row_store::QUEUES;
use std::alloc::{AllocError, Global};

/// The header of a text, if it is a message.
fn header_of(alloc: Global, raw: &Text) -> Result<Option<Header>, AllocError>
    ensures { IfOk result (λ header. header ≡ header_in raw.now) }
{
    match Message::parse(alloc, raw.as_slice()) {
        Ok(message) => Ok(Some(Header::read(&message)?)),
        Err(Refusal::NoMemory) => Err(AllocError),
        Err(_) => Ok(None),
    }
}

/// Whether a message with this header is booked when it arrives: it is no acknowledgment, and its control id isn't too long.
fn is_booked(header: &Header) -> bool
    ensures { result ≡ (not (is_acknowledgment header.now) && nat_le (length header.now.control_id) CONTROL_ID_MAX) }
{
    header.message_code() != b"ACK".as_slice() && header.control_id().len() <= CONTROL_ID_MAX
}

/// The header of the bytes of a message that is booked when it arrives, if they are one.
fn booked_header(alloc: Global, raw: &Text) -> Result<Option<Header>, AllocError>
    ensures header { IfOk result (λ header. IfSome header (λ h. header_in raw.now ≡ Some h)) }
    ensures message { IfOk result (λ header. IfSome header (λ _. IsMessage raw.now)) }
    ensures none { IfOk result (λ header. header ≡ None → ¬ IsMessage raw.now) }
{
    match header_of(alloc, raw)? {
        Some(header) if is_booked(&header) => Ok(Some(header)),
        _ => Ok(None),
    }
}

/// The key of a message with this header that arrived on a channel.
fn key_of(alloc: Global, channel: u32, header: &Header) -> Result<Key, AllocError>
    requires { channel < CHANNELS }
    ensures { IfOk result (λ key. key ≡ key_by channel header.now) }
{
    Key::new()
        .with(alloc, &[channel as u8])?
        .with(alloc, header.sending_application())?
        .with(alloc, b"\r")?
        .with(alloc, header.sending_facility())?
        .with(alloc, b"\r")?
        .with(alloc, header.control_id())
}

/// What is sent of an arrival with this header.
fn outbound_of(alloc: Global, arrival: &Remembered, header: &Header) -> Result<Outbound, AllocError>
    ensures { IfOk result (λ letter. letter ≡ record {
      place = arrival.now.place;
      channel = arrival.now.channel;
      raw = arrival.now.raw;
      control_id = header.now.control_id;
      deliveries = arrival.now.deliveries;
    }) }
{
    let (place, channel) = (arrival.place(), arrival.channel());
    match arrival.deliveries() {
        Some(deliveries) => Outbound::share(place, channel, arrival.raw(), header, deliveries),
        None => {
            let nowhere = Deliveries::of(alloc, Vec::new(alloc))?;
            Outbound::share(place, channel, arrival.raw(), header, &nowhere)
        }
    }
}

/// The queues of a message with these slots: bit d of the mask is set where it is still to be delivered to d.
fn queues_of(slots: &Slots) -> u32
    ensures { (d : ℕ) → d < QUEUES → (bit_at result d == 1) ≡ lives_at d slots.now }
{
    let mut mask = 0;
    for d in 0..QUEUES {
        if lives_at(slots, d) {
            mask |= 1 << d;
        }
    }
    mask
}

/// Whether a message with these slots is still to be delivered to d.
fn lives_at(slots: &Slots, d: u32) -> bool
    ensures { result ≡ lives_at d slots.now }
{
    slots.state_at(d).is_some_and(|state| state.is_live())
}

/// Adds the row of an arrival with this header, if it was accepted.
fn add_row<S: BookRows>(
    alloc: Global,
    rows: &mut S,
    arrival: &Remembered,
    header: &Header,
) -> Result<(), AllocError>
    requires header { header_in arrival.now.raw ≡ Some header.now }
    requires next { HasRoomFor (number_of arrival.now) (S.rows rows.old) }
    ensures { OnOk result (AddsNumbered (number_of arrival.now) arrival.now (S.rows rows.old) (S.rows rows.new)) }
{
    let Told::Accepted(number) = arrival.told() else {
        return Ok(());
    };
    let item = Queued {
        content: outbound_of(alloc, arrival, header)?,
        slots: arrival.slots().copy()?,
    };
    match rows.push(number, item, queues_of(arrival.slots())) {
        Ok(()) => Ok(()),
        Err(_) => Err(AllocError),
    }
}

/// Adds the row and the key of an arrival.
///
/// # Errors
///
/// `NotGood` where its bytes are no message that is booked when it arrives, or its key is known.
fn add_arrival<S: BookRows>(
    alloc: Global,
    rows: &mut S,
    keys: &mut Keys,
    arrival: &Remembered,
) -> Result<(), ResumeFault>
    requires channel { arrival.now.channel < CHANNELS }
    requires next { HasRoomFor (number_of arrival.now) (S.rows rows.old) }
    ensures row { OnOk result (AddsNumbered (number_of arrival.now) arrival.now (S.rows rows.old) (S.rows rows.new)) }
    ensures key { OnOk result (keys.new.known ≡ keys.old.known ++ known_as arrival.now ∷ []) }
    ensures message { OnOk result (IsMessage arrival.now.raw) }
    ensures unknown { OnOk result (place_of (key_of arrival.now.channel arrival.now.raw) keys.old.known ≡ None) }
    ensures refused { IsErrOf result NotGood → IsMessage arrival.now.raw
        → ¬ (place_of (key_of arrival.now.channel arrival.now.raw) keys.old.known ≡ None) }
{
    let Some(header) = booked_header(alloc, arrival.raw())? else {
        return Err(ResumeFault::NotGood);
    };
    let key = key_of(alloc, arrival.channel(), &header)?;
    if keys.find(key.as_slice()).is_some() {
        return Err(ResumeFault::NotGood);
    }
    let known = KnownKey::new(alloc, key.as_slice(), offset_32(arrival.place())?)?;
    keys.reserve(1)?;
    add_row(alloc, rows, arrival, &header)?;
    keys.add(known);
    Ok(())
}

/// Adds the rows and the keys of the arrivals that are remembered.
///
/// # Errors
///
/// `NotGood` where one of them is no message that is booked when it arrives, or two have the same key.
pub(crate) fn add_arrivals<S: BookRows>(
    alloc: Global,
    rows: &mut S,
    keys: &mut Keys,
    arrivals: &[Remembered],
) -> Result<(), ResumeFault>
    requires no_rows { S.rows rows.old ≡ [] }
    requires no_keys { keys.old.known ≡ [] }
    requires channels { All (λ r. r.channel < CHANNELS) arrivals.now }
    requires rise { IsStrictlyIncreasing (filter_map number_of arrivals.now) }
    requires within { All (λ n. n < PLACES_MAX) (filter_map number_of arrivals.now) }
    ensures rows { OnOk result (AreRowsOf arrivals.now (S.rows rows.new)) }
    ensures keys { OnOk result (keys.new.known ≡ map known_as arrivals.now) }
    ensures messages { OnOk result (All (λ r. IsMessage r.raw) arrivals.now) }
    ensures apart { OnOk result (AreApart arrivals.now) }
    ensures refused { IsErrOf result NotGood → All (λ r. IsMessage r.raw) arrivals.now → ¬ AreApart arrivals.now }
{
    for arrival in arrivals {
        add_arrival(alloc, rows, keys, arrival)?;
    }
    Ok(())
}
