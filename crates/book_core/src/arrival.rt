//! The answer to an arrival, and what is kept of it.

ghost use Rattle.std.specs.Prelude.{◌≡◌, ◌≢◌, ◌<◌, ◌≤◌, ◌==◌, ℕ, true, false, [], ◌∷◌, ◌++◌, IfOk, OnOk, OnErr, IsTrue, Some, None, All, AllPairs};
ghost use Rattle.std.specs.Int.{bit_at};
ghost use Rattle.std.specs.Option.{option_map_or};
ghost use Rattle.dup_index.specs.inner.Known.{place_of};
ghost use Rattle.judge_core.specs.Delivering.{destinations_of};
ghost use Rattle.judge_core.specs.Judging.{is_bookable, verdict};
ghost use Rattle.dest_queue.specs.declared.SlotState.{SlotState};
ghost use Rattle.dest_queue.specs.inner.SlotsBy.{slots_by};
ghost use Rattle.event_log.specs.History.{control_id_of, names, plan_in_force};
ghost use Rattle.event_log.specs.Answers.{arrival_answer};
ghost use Rattle.event_log.specs.Room.{committed_by_new};
ghost use Rattle.book_core.specs.Receiving.{repeat_of};
ghost use Rattle.book_core.specs.inner.Parts.{KeysAgree};
ghost use Rattle.book_core.specs.inner.Sending.{AddsGain, AddsRow, HasRoomFor, IsAccepting, IsAddition, goes_to, has_key};

use crate::letter::{BookRows, Outbound};
use dest_queue::{Queued, Slots};
use dup_index::{Keys, KnownKey};
use event_log::{Log, Told, committed_by_new, told_first};
use hl7_head::{Cause, Header};
use judge_core::{Deliveries, Delivery, Judged, Text, Verdict, offset_32};
use std::alloc::{AllocError, Global};

/// The answer to a message: its key is looked up before its verdict is used.
pub(crate) fn told(log: &Log, keys: &Keys, judged: &Judged) -> Told
    requires bookable { IsTrue (is_bookable judged.now.raw) }
    requires same_plan { judged.now.plan ≡ plan_in_force log.now.history }
    requires keys { KeysAgree log.now.history keys.now.known }
    ensures { arrival_answer log.now.history judged.now.channel judged.now.raw ≡ Some result }
{
    match keys.find(judged.key()) {
        Some(place) if log.brings(place as usize, judged.raw().as_slice()) => Told::Repeat(place),
        Some(_) => Told::Refused(Cause::IdReused),
        None => told_first(judged.verdict(), log.message_count()),
    }
}

/// The index of the arrival that a message repeats, if there is one: it has the same key and the same bytes.
pub(crate) fn repeat_of(log: &Log, keys: &Keys, judged: &Judged) -> Option<u32>
    requires bookable { IsTrue (is_bookable judged.now.raw) }
    requires keys { KeysAgree log.now.history keys.now.known }
    ensures { result ≡ repeat_of log.now.history judged.now.channel judged.now.raw }
{
    let place = keys.find(judged.key())?;
    let same = log.brings(place as usize, judged.raw().as_slice());
    if same { Some(place) } else { None }
}

/// What an arrival adds to a book beside its entry.
#[derive(Clone, Copy)]
pub enum Addition<'a> {
    /// The row and the key of a message that is accepted.
    Message {
        number: u32,
        header: &'a Header,
        deliveries: &'a Deliveries,
    },
    /// The key of a message that is filtered.
    Key,
    /// Nothing, where it is refused or a repeat.
    Nothing,
}

/// What an arrival with this answer adds.
#[tactic(auto, using(crate::proofs::Gains::id_known))]
pub(crate) fn gain_of(told: Told, judged: &Judged) -> Addition<'_>
    requires { IsAccepting told (verdict judged.now.plan judged.now.channel judged.now.raw) }
    ensures { IsAddition told (control_id_of judged.now.raw) (verdict judged.now.plan judged.now.channel judged.now.raw) result }
{
    match (told, judged.verdict(), judged.header()) {
        (Told::Accepted(number), Verdict::Accept(deliveries), Some(header)) => {
            Addition::Message {
                number,
                header,
                deliveries,
            }
        }
        (Told::Filtered, _, _) => Addition::Key,
        _ => Addition::Nothing,
    }
}

impl<'a> Addition<'a> {
    /// Where the message goes; nowhere unless it is accepted.
    pub fn deliveries(self) -> &'a [Delivery]
        ensures value { result.now ≡ goes_to self.entry }
        ensures within { All (λ x. x.destination < 32) result.now }
        ensures once { AllPairs (λ x y. x.destination ≢ y.destination) result.now }
    {
        match self {
            Addition::Message { deliveries, .. } => deliveries.as_slice(),
            Addition::Key | Addition::Nothing => &[],
        }
    }
}

/// The entries that the slots owe that are added.
pub(crate) fn owed_by(log: &Log, gain: Addition<'_>) -> u32
    ensures { result ≡ committed_by_new (plan_in_force log.now.history) (destinations_of (goes_to gain.entry)) }
{
    committed_by_new(log.plan(), gain.deliveries())
}

/// The destinations of deliveries as a mask.
fn mask_of(deliveries: &[Delivery]) -> u32
    requires { All (λ x. x.destination < 32) deliveries.now }
    ensures { (d : ℕ) → d < 32 → (bit_at result d == 1) ≡ names d deliveries.now }
{
    let mut mask = 0;
    for delivery in deliveries {
        mask |= 1 << delivery.destination;
    }
    mask
}

/// The slots of a message that waits for its first attempt wherever it goes.
fn first_slots(alloc: Global, deliveries: &[Delivery]) -> Result<Slots, AllocError>
    requires { All (λ x. x.destination < 32) deliveries.now }
    ensures { IfOk result (λ slots. slots ≡ slots_by (λ _. SlotState.Waiting 0 0) (destinations_of deliveries.now)) }
{
    let mut slots = Slots::new(alloc);
    for delivery in deliveries {
        slots.add(delivery.destination)?;
    }
    Ok(slots)
}

/// What is kept of a message that waits for its first attempt wherever it goes.
fn first_item(
    alloc: Global,
    place: usize,
    channel: u32,
    raw: &Text,
    header: &Header,
    deliveries: &Deliveries,
) -> Result<Queued<Outbound>, AllocError>
    ensures content { IfOk result (λ item. item.content
        ≡ record { place = place; channel = channel; raw = raw.now; control_id = header.now.control_id; deliveries = deliveries.now }) }
    ensures slots { IfOk result (λ item. item.slots ≡ slots_by (λ _. SlotState.Waiting 0 0) (destinations_of deliveries.now)) }
{
    let content = Outbound::share(place, channel, raw, header, deliveries)?;
    let slots = first_slots(alloc, deliveries.as_slice())?;
    Ok(Queued { content, slots })
}

/// Adds the row of a message, which waits wherever it goes.
fn add_row<S: BookRows>(
    alloc: Global,
    rows: &mut S,
    number: u32,
    place: usize,
    channel: u32,
    raw: &Text,
    header: &Header,
    deliveries: &Deliveries,
) -> Result<(), AllocError>
    requires { All (λ row. row.number < number) (S.rows rows.old) }
    ensures ok { OnOk result (AddsRow number channel raw.now header.now.control_id deliveries.now (S.rows rows.old) (S.rows rows.new)) }
    ensures err { OnErr result (S.rows rows.new ≡ S.rows rows.old) }
{
    let mask = mask_of(deliveries.as_slice());
    let item = first_item(alloc, place, channel, raw, header, deliveries)?;
    match rows.push(number, item, mask) {
        Ok(()) => Ok(()),
        Err(_) => Err(AllocError),
    }
}

/// A key with the index of its entry, and room for it among the keys. An index is far below 2^32: one that isn't is refused as
/// memory is.
fn known_key(
    alloc: Global,
    keys: &mut Keys,
    key: &[u8],
    place: usize,
) -> Result<KnownKey, AllocError>
    ensures known { keys.new.known ≡ keys.old.known }
    ensures key { IfOk result (λ known. known ≡ record { key = key.now; place = place }) }
    ensures room { OnOk result (0 < keys.new.room) }
{
    keys.reserve(1)?;
    KnownKey::new(alloc, key, offset_32(place)?)
}

/// Adds the row and the key that an arrival on a channel with these bytes adds, both with the index of its entry.
///
/// # Errors
///
/// Where memory is refused; rows and keys are as they were.
pub(crate) fn add_gain<S: BookRows>(
    alloc: Global,
    rows: &mut S,
    keys: &mut Keys,
    gain: Addition<'_>,
    key: &[u8],
    place: usize,
    channel: u32,
    raw: &Text,
) -> Result<(), AllocError>
    requires next { HasRoomFor gain (S.rows rows.old) }
    requires unknown { has_key gain ≡ true → place_of key.now keys.old.known ≡ None }
    ensures row { OnOk result (AddsGain channel raw.now gain.entry (S.rows rows.old) (S.rows rows.new)) }
    ensures key { OnOk result (has_key gain.entry ≡ true → keys.new.known ≡ keys.old.known ++ record { key = key.now; place = place } ∷ []) }
    ensures no_key { OnOk result (has_key gain.entry ≡ false → keys.new.known ≡ keys.old.known) }
    ensures no_row { OnErr result (S.rows rows.new ≡ S.rows rows.old) }
    ensures known { OnErr result (keys.new.known ≡ keys.old.known) }
{
    match gain {
        Addition::Message {
            number,
            header,
            deliveries,
        } => {
            let known = known_key(alloc, keys, key, place)?;
            add_row(alloc, rows, number, place, channel, raw, header, deliveries)?;
            keys.add(known);
        }
        Addition::Key => {
            let known = known_key(alloc, keys, key, place)?;
            keys.add(known);
        }
        Addition::Nothing => {}
    }
    Ok(())
}
