//! What is tested of the deliveries and the arrivals that are decoded.

ghost use Rattle.std.specs.Prelude.{◌≡◌, map};
ghost use Rattle.std.specs.Bool.{Decides};
ghost use Rattle.std.specs.List.{list_all};
ghost use Rattle.std.specs.List.Sorted.{IsStrictlyIncreasing};
ghost use Rattle.event_log.specs.History.{names};
ghost use Rattle.opening_records.specs.inner.Decoding.{are_apart, are_deliveries, climb_from, is_delivery, is_plain};

use event_log::Remembered;
use judge_core::Delivery;
use mllp_frame::{END_BLOCK, START_BLOCK};

/// Whether a text has none of the two bytes that frame a block.
fn is_plain(text: &[u8]) -> bool
    ensures { result ≡ is_plain text.now }
{
    text.iter().all(|b| !(*b == START_BLOCK || *b == END_BLOCK))
}

/// Whether a delivery is to one of 32 destinations, with a text that can be framed.
fn is_delivery(item: &Delivery) -> bool
    ensures { result ≡ is_delivery item.now }
{
    item.destination < 32 && is_plain(item.payload.as_slice())
}

/// Whether one of the deliveries is to this destination.
fn names(items: &[Delivery], d: u32) -> bool
    ensures { result ≡ names d items.now }
{
    items.iter().any(|item| item.destination == d)
}

/// Whether no two of a few deliveries are to the same destination.
fn are_apart(items: &[Delivery]) -> bool
    ensures { result ≡ are_apart items.now }
{
    match items {
        [] => true,
        [first, others @ ..] => !names(others, first.destination) && are_apart(others),
    }
}

/// Whether each of a few deliveries is one.
fn all_deliveries(items: &[Delivery]) -> bool
    ensures { result ≡ list_all is_delivery items.now }
{
    items.iter().all(|item| is_delivery(item))
}

/// Whether a message can have these deliveries.
pub(crate) fn are_deliveries(items: &[Delivery]) -> bool
    ensures { result ≡ are_deliveries items.now }
{
    items.len() <= 32 && all_deliveries(items) && are_apart(items)
}

/// Whether the index of each arrival is greater than the one before.
fn places_climb(items: &[Remembered]) -> bool
    ensures { result ≡ climb_from 0 (map (λ r. r.place) items.now) }
{
    let mut low = 0u128;
    for item in items {
        let place = item.place() as u128;
        if place < low {
            return false;
        }
        low = place + 1;
    }
    true
}

/// Whether the indices of arrivals increase.
#[tactic(auto, using(crate::proofs::Rising::climb_decides))]
pub(crate) fn places_increase(items: &[Remembered]) -> bool
    ensures { Decides result (IsStrictlyIncreasing (map (λ r. r.place) items.now)) }
{
    places_climb(items)
}
