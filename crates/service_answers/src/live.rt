//! Where a message is still to be delivered.

ghost use Rattle.std.specs.Prelude.{◌≡◌, ◌≢◌, ◌<◌, ◌==◌, ℕ};
ghost use Rattle.std.specs.Int.{bit_at};
ghost use Rattle.service_answers.specs.inner.Live.{flies_at, state_at, waits_at};

use book_lock::Found;
use dest_queue::SlotState;
use row_store::QUEUES;

/// At which destinations a message is still to be delivered, as masks: bit 0 is that of the first destination.
#[derive(Clone, Copy, Debug, PartialEq, Eq)]
pub struct Live {
    /// Where it waits.
    pub waiting: u32,
    /// Where it is in flight.
    pub in_flight: u32,
}

/// The state of a message at a destination, where it is kept and goes there.
pub fn state_at(found: &Found, destination: u32) -> Option<SlotState>
    ensures { result ≡ state_at found.now destination }
{
    let Found::Kept(message) = found else {
        return None;
    };
    match message.states.get(destination as usize) {
        Some(state) => *state,
        None => None,
    }
}

/// Whether a message waits at a destination.
fn waits_at(found: &Found, destination: u32) -> bool
    ensures { result ≡ waits_at found.now destination }
{
    match state_at(found, destination) {
        Some(state) => state.is_waiting(),
        None => false,
    }
}

/// Whether a message is in flight at a destination.
fn flies_at(found: &Found, destination: u32) -> bool
    ensures { result ≡ flies_at found.now destination }
{
    match state_at(found, destination) {
        Some(SlotState::InFlight { .. }) => true,
        _ => false,
    }
}

/// A mask, with the bit of a destination set where this is so.
#[tactic(auto, using(crate::proofs::Masks::set_here, crate::proofs::Masks::set_others))]
fn with_destination(mask: u32, destination: u32, is_set: bool) -> u32
    requires { destination < 32 }
    ensures here { bit_at mask destination ≡ 0 → (bit_at result destination == 1) ≡ is_set }
    ensures others { (d : ℕ) → d ≢ destination → bit_at result d ≡ bit_at mask d }
{
    if is_set {
        mask | 1 << destination
    } else {
        mask
    }
}

/// The destinations at which a message waits.
#[tactic(auto, using(crate::proofs::Masks::mask_none, crate::proofs::Masks::mask_more, crate::proofs::Masks::mask_below))]
fn waiting_at(found: &Found) -> u32
    ensures { (d : ℕ) → d < 32 → (bit_at result d == 1) ≡ waits_at found.now d }
{
    let mut mask = 0;
    for destination in 0..QUEUES {
        mask = with_destination(mask, destination, waits_at(found, destination));
    }
    mask
}

/// The destinations at which a message is in flight.
#[tactic(auto, using(crate::proofs::Masks::mask_none, crate::proofs::Masks::mask_more, crate::proofs::Masks::mask_below))]
fn in_flight_at(found: &Found) -> u32
    ensures { (d : ℕ) → d < 32 → (bit_at result d == 1) ≡ flies_at found.now d }
{
    let mut mask = 0;
    for destination in 0..QUEUES {
        mask = with_destination(mask, destination, flies_at(found, destination));
    }
    mask
}

/// At which destinations a message is still to be delivered: at none where it is not kept.
pub fn live_of(found: &Found) -> Live
    ensures waiting { (d : ℕ) → d < 32 → (bit_at result.waiting d == 1) ≡ waits_at found.now d }
    ensures in_flight { (d : ℕ) → d < 32 → (bit_at result.in_flight d == 1) ≡ flies_at found.now d }
{
    Live {
        waiting: waiting_at(found),
        in_flight: in_flight_at(found),
    }
}
