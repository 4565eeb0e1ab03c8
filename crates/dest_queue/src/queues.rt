//! The calls on slots, over any store of rows.

ghost use Rattle.std.specs.Prelude.{◌≡◌, ◌==◌, ◌&&◌, ◌+◌, ◌<◌, ◌^◌, ◌↔◌, ℕ, Some, None, IsNone, IsSomeAnd, IfSome, IfOk, OnErr};
ghost use Rattle.std.specs.Int.{bit_at};
ghost use Rattle.row_store.specs.Rows.{item_at};
ghost use Rattle.row_store.specs.inner.Rows.{changed_at};
ghost use Rattle.dest_queue.specs.States.{slot_answer, state_after};
ghost use Rattle.dest_queue.specs.inner.Slots.{everywhere, has_bit};
ghost use Rattle.dest_queue.specs.inner.States.{next_attempt};
ghost use Rattle.dest_queue.specs.Queues.{slot_of};
ghost use Rattle.dest_queue.specs.inner.Queues.{front_state, put, settle, cancel, waits_in, WaitsBelow};

use crate::slots::has_bit;
use crate::{ATTEMPTS_MAX, FailCause, Outcome, Queued, SettleRefusal, SlotState};
use row_store::{QUEUES, RowStore};

/// The slot of a message at d: nothing where there is no such message, or it doesn't name d.
pub fn slot_of<T, S: RowStore<Queued<T>>>(rows: &S, number: u32, d: u32) -> Option<SlotState>
    ensures { result ≡ slot_of number d (S.rows rows.now) }
{
    rows.get(number)?.slots.state_at(d)
}

/// The message at the front of queue d, and its slot there.
pub fn front_state<T, S: RowStore<Queued<T>>>(rows: &mut S, d: u32) -> Option<(u32, SlotState)>
    ensures front { result ≡ front_state d (S.rows rows.old) }
    ensures unchanged { S.rows rows.new ≡ S.rows rows.old }
{
    let number = rows.front(d)?;
    let state = slot_of(rows, number, d)?;
    Some((number, state))
}

/// Takes the message at the front of queue d: returns its number and the attempt that begins, which is one more than
/// those before. The message stays at the front while the attempt is in flight.
pub fn take_front<T, S: RowStore<Queued<T>>>(rows: &mut S, d: u32) -> (u32, u32)
    requires { IsSomeAnd (front_state d (S.rows rows.old)) (λ front. WaitsBelow ATTEMPTS_MAX front.1) }
    ensures taken { IsSomeAnd (front_state d (S.rows rows.old)) (λ front. result ≡ (front.0, next_attempt front.1)) }
    ensures changed { S.rows rows.new ≡ changed_at result.0 (put d (SlotState.InFlight result.1)) (S.rows rows.old) }
{
    match front_state(rows, d) {
        Some((number, SlotState::Waiting { attempts, .. })) => {
            let attempt = attempts + 1;
            begin_attempt(rows, number, d, attempt);
            (number, attempt)
        }
        _ => unreachable!(),
    }
}

/// Begins an attempt at d, for a caller that has found the front already: the slot there is in flight from then on, and
/// the message keeps its position in its queues.
pub fn begin_attempt<T, S: RowStore<Queued<T>>>(rows: &mut S, number: u32, d: u32, attempt: u32)
    ensures { S.rows rows.new ≡ changed_at number (put d (SlotState.InFlight attempt)) (S.rows rows.old) }
{
    put_slot(rows, number, d, SlotState::InFlight { attempt });
}

/// Settles an attempt at d that is in flight. Delivered and rejected messages leave the queue, and so do those that have
/// to be sent again after attempt `max`; other retries stay at the front, and are due `interval` seconds after `now`.
///
/// # Errors
///
/// `NoSlot` where there is no such message or it doesn't name d, and `NotInFlight` where the slot is not in flight with
/// that very attempt. Nothing changes then.
pub fn settle_slot<T, S: RowStore<Queued<T>>>(
    rows: &mut S,
    number: u32,
    d: u32,
    attempt: u32,
    outcome: Outcome,
    now: u64,
    max: u32,
    interval: u32,
) -> Result<SlotState, SettleRefusal>
    requires { now + interval < 2 ^ 64 }
    ensures answer { result ≡ slot_answer (slot_of number d (S.rows rows.old)) outcome attempt now max interval }
    ensures settled { IfOk result (λ state. S.rows rows.new ≡ changed_at number (settle d state) (S.rows rows.old)) }
    ensures refused { OnErr result (S.rows rows.new ≡ S.rows rows.old) }
{
    match slot_of(rows, number, d) {
        None => Err(SettleRefusal::NoSlot),
        Some(SlotState::InFlight { attempt: in_flight }) if in_flight == attempt => {
            let state = state_after(outcome, attempt, now, max, interval);
            put_slot(rows, number, d, state);
            if !state.is_live() {
                rows.unlink(number, d);
            }
            Ok(state)
        }
        Some(state) => Err(SettleRefusal::NotInFlight(state)),
    }
}

/// Cancels each slot of a message that waits, and answers where as a mask: bit d is set where the message waited at d.
/// Those queues lose it. Nothing where there is no such message; 0, and nothing changes, where it waits nowhere.
pub fn cancel_waiting<T, S: RowStore<Queued<T>>>(rows: &mut S, number: u32) -> Option<u32>
    ensures missing { IsNone result ↔ (item_at number (S.rows rows.old) ≡ None) }
    ensures mask { IfSome result (λ mask. (d : ℕ) → (bit_at mask d == 1) ≡ waits_in number d (S.rows rows.old)) }
    ensures cancelled { S.rows rows.new ≡ changed_at number (cancel everywhere) (S.rows rows.old) }
    ensures unchanged { result ≡ Some 0 → S.rows rows.new ≡ S.rows rows.old }
{
    rows.numbers_rise();
    rows.get(number)?.slots.destinations_are_few();
    cancel_among(rows, number, u32::MAX)
}

/// Cancels each slot of a message that waits at one of the destinations of the mask `among`, and answers where as a mask:
/// bit d is set where bit d of `among` is and the message waited at d. Those queues lose it. Nothing where there is no such
/// message; 0, and nothing changes, where it waits at none of these destinations.
pub fn cancel_among<T, S: RowStore<Queued<T>>>(rows: &mut S, number: u32, among: u32) -> Option<u32>
    ensures missing { IsNone result ↔ (item_at number (S.rows rows.old) ≡ None) }
    ensures mask { IfSome result (λ mask. (d : ℕ) → (bit_at mask d == 1) ≡ (has_bit among d && waits_in number d (S.rows rows.old))) }
    ensures cancelled { S.rows rows.new ≡ changed_at number (cancel (has_bit among)) (S.rows rows.old) }
    ensures unchanged { result ≡ Some 0 → S.rows rows.new ≡ S.rows rows.old }
{
    // Each number has one row: its item is the one that is changed.
    rows.numbers_rise();
    let mask = rows.get_mut(number)?.slots.cancel(among);
    for d in 0..QUEUES {
        if has_bit(mask, d) {
            rows.unlink(number, d);
        }
    }
    Some(mask)
}

/// Puts the slot of a message at d into a state.
fn put_slot<T, S: RowStore<Queued<T>>>(rows: &mut S, number: u32, d: u32, state: SlotState)
    ensures { S.rows rows.new ≡ changed_at number (put d state) (S.rows rows.old) }
{
    // Each number has one row: its item is the one that is changed.
    rows.numbers_rise();
    if let Some(message) = rows.get_mut(number) {
        message.slots.put(d, state);
    }
}

/// What an attempt's outcome makes of its slot.
fn state_after(outcome: Outcome, attempt: u32, now: u64, max: u32, interval: u32) -> SlotState
    requires { now + interval < 2 ^ 64 }
    ensures { result ≡ state_after outcome attempt now max interval }
{
    match outcome {
        Outcome::Delivered => SlotState::Delivered,
        Outcome::Rejected => SlotState::Failed(FailCause::Rejected),
        Outcome::Again if attempt == max => SlotState::Failed(FailCause::Exhausted),
        Outcome::Again => SlotState::Waiting {
            attempts: attempt,
            due: now + u64::from(interval),
        },
    }
}
