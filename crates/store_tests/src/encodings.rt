//! The encoding of an opening: its bytes, and bytes that are none.

ghost use Rattle.std.specs.Prelude.{◌≡◌, IfOk};

use crate::maps::{PLAN, in_order, text};
use dest_queue::{FailCause, Slot, SlotState, Slots};
use event_log::{Remembered, Snapshot, Told};
use judge_core::{Deliveries, Delivery, Text, fits_block};
use opening_records::{OpeningFault, Reason, put_opening, read_opening};
use plan_text::Plan;
use stat_count::{CHANNELS, ChannelCounts, Counts, DESTINATIONS, DestinationCounts};
use std::alloc::Global;
use std::sync::Arc;
use std::test::Fail;

/// The bytes received of the first arrival, and of the second.
const FIRST: &[u8] = b"MSH|^~\\&|A";

const SECOND: &[u8] = b"MSH|^~\\&|B";

/// The offset of the counters behind the numbers and the plan, and of the arrivals behind the counters.
const COUNTERS_AT: usize = 25 + 4 + PLAN.len();

const ARRIVALS_AT: usize = COUNTERS_AT + 2 * 4 + 96 * 40;

/// The offset of the second arrival: the first has 17 bytes, a text of ten bytes, and no deliveries and slots.
const SECOND_AT: usize = ARRIVALS_AT + 4 + 17 + 14 + 4 + 4;

/// The offset of its deliveries, and of its slots.
const DELIVERIES_AT: usize = SECOND_AT + 21 + 10;

const SLOTS_AT: usize = DELIVERIES_AT + 13 + 19 + 9;

/// Counters by which three messages were received on the first channel, and two of them were delivered to the first destination.
fn counters() -> Result<Counts, Fail> {
    let mut channels = [ChannelCounts {
        received: 0,
        filtered: 0,
        accepted: 0,
        refused: 0,
        repeats: 0,
    }; CHANNELS as usize];
    channels[0].received = 3;
    channels[0].filtered = 1;
    channels[0].accepted = 2;
    let mut destinations = [DestinationCounts {
        waiting: 0,
        inflight: 0,
        delivered: 0,
        failed: 0,
        attempts: 0,
    }; DESTINATIONS as usize];
    destinations[0].delivered = 2;
    destinations[0].attempts = 5;
    match Counts::of(&channels, &destinations) {
        Some(counts) => Ok(counts),
        None => Err(Fail::from("no counters")),
    }
}

/// An arrival that was filtered.
fn filtered(alloc: Global) -> Result<Remembered, Fail>
    ensures { IfOk result (λ r. r.place ≡ 3) }
{
    let raw = text(alloc, FIRST)?;
    Ok(Remembered::new(3, 0, raw, Told::Filtered, None, Slots::new(alloc)))
}

/// Deliveries to three destinations, of which the second is sent a text of its own.
#[tactic(auto, using(crate::proofs::ThreeDeliveries::three_apart))]
fn deliveries(alloc: Global, raw: &Text, own: Text) -> Result<Deliveries, Fail> {
    if !fits_block(raw.as_slice()) || !fits_block(own.as_slice()) {
        return Err(Fail::from("no block"));
    }
    let first = Delivery {
        destination: 0,
        payload: raw.share()?,
    };
    let second = Delivery {
        destination: 1,
        payload: own,
    };
    let third = Delivery {
        destination: 2,
        payload: raw.share()?,
    };
    let items = Vec::from_array(alloc, [first, second, third])?;
    Ok(Deliveries::of(alloc, items)?)
}

/// The slots of three deliveries, of which the first waits, the second was made and the third has failed.
fn slots(alloc: Global) -> Result<Slots, Fail> {
    let mut slots = Slots::new(alloc);
    for slot in [
        Slot {
            destination: 0,
            state: SlotState::Waiting {
                attempts: 2,
                due: 1_700_000_000,
            },
        },
        Slot {
            destination: 1,
            state: SlotState::Delivered,
        },
        Slot {
            destination: 2,
            state: SlotState::Failed(FailCause::Exhausted),
        },
    ] {
        slots.push(slot)?;
    }
    Ok(slots)
}

/// An arrival that was accepted for three destinations: to one of them goes another text. It waits, was delivered and failed.
fn accepted(alloc: Global) -> Result<Remembered, Fail>
    ensures { IfOk result (λ r. r.place ≡ 7) }
{
    let raw = text(alloc, SECOND)?;
    let deliveries = deliveries(alloc, &raw, text(alloc, b"MSH|^~\\&|C")?)?;
    let slots = slots(alloc)?;
    Ok(Remembered::new(7, 0, raw, Told::Accepted(1), Some(deliveries), slots))
}

/// An opening of the two arrivals.
fn opening(alloc: Global) -> Result<Snapshot, Fail> {
    let Ok(plan) = Plan::read(alloc, PLAN.as_bytes()) else {
        return Err(Fail::from("no plan"));
    };
    let first = filtered(alloc)?;
    let second = accepted(alloc)?;
    let remembered = in_order(alloc, first, second)?;
    let counters = counters()?;
    Ok(Snapshot::of(
        Arc::new(alloc, plan)?,
        1000,
        40,
        3,
        0,
        2,
        counters,
        remembered,
    ))
}

/// The bytes of the opening.
fn bytes_of(alloc: Global) -> Result<Vec<u8>, Fail> {
    let opening = opening(alloc)?;
    let mut bytes = Vec::new(alloc);
    put_opening(&mut bytes, &opening, 1000)?;
    Ok(bytes)
}

/// The fault of bytes that are no opening.
fn fault_of(alloc: Global, bytes: &[u8]) -> Option<OpeningFault> {
    read_opening(alloc, bytes).err()
}

/// The parts of the opening's bytes whose layout is fixed, each with its offset.
const LAYOUT: &[(usize, &[u8])] = &[
    // The numbers of the opening.
    (
        0,
        &[
            1, 0, 0, 3, 0xE8, 0, 0, 0, 0, 0, 0, 0, 40, 0, 0, 0, 3, 0, 0, 0, 0, 0, 0, 0, 2,
        ],
    ),
    // Of the second arrival: accepted as message 1, index 7, channel 0; ten bytes received, and three deliveries.
    (
        SECOND_AT,
        &[
            0, 0, 0, 0, 1, 0, 0, 0, 0, 0, 0, 0, 7, 0, 0, 0, 0, 0, 0, 0, 10,
        ],
    ),
    // The second delivery has a text of its own, the others have none.
    (DELIVERIES_AT, &[0, 0, 0, 3, 1, 0, 0, 0, 0, 0, 0, 0, 0]),
    (DELIVERIES_AT + 13, &[0, 0, 0, 0, 1, 0, 0, 0, 10]),
    // Its first slot waits after two attempts.
    (
        SLOTS_AT,
        &[
            0, 0, 0, 3, 0, 0, 0, 0, 0, 0, 0, 0, 2, 0, 0, 0, 0, 0x65, 0x53, 0xF1, 0,
        ],
    ),
];

/// The offset of the first part that is laid out otherwise, if there is one.
fn other_layout(bytes: &[u8]) -> Option<usize> {
    for (at, part) in LAYOUT {
        if bytes.get(*at..at.saturating_add(part.len())) != Some(*part) {
            return Some(*at);
        }
    }
    None
}

#[test]
fn is_laid_out_so(rt: HostRuntime) -> Result<(), Fail> {
    let bytes = bytes_of(rt.alloc())?;
    assert_eq!(rt;
        (other_layout(&bytes), bytes.len()),
        (None, SLOTS_AT + 4 + 3 * 17)
    );
    Ok(())
}

/// The bound, the next index and the number of arrivals of an opening.
fn sizes(opening: &Snapshot) -> (u32, usize, usize) {
    (
        opening.events_max(),
        opening.places(),
        opening.remembered().len(),
    )
}

/// The bytes of what is read from an opening's bytes, and its sizes.
fn read_back(alloc: Global, bytes: &[u8]) -> Result<((u32, usize, usize), Vec<u8>), Fail> {
    let opening = read_opening(alloc, bytes)?;
    let mut again = Vec::new(alloc);
    put_opening(&mut again, &opening, 1000)?;
    Ok((sizes(&opening), again))
}

#[test]
fn is_read_back(rt: HostRuntime) -> Result<(), Fail> {
    let bytes = bytes_of(rt.alloc())?;
    let (sizes, again) = read_back(rt.alloc(), &bytes)?;
    assert!(rt; sizes == (1000, 40, 2) && again.as_slice() == bytes.as_slice());
    Ok(())
}

/// The shortest prefix of the bytes that isn't refused as truncated, if there is one.
fn not_truncated(alloc: Global, bytes: &[u8]) -> Option<usize> {
    for len in 0..bytes.len() {
        match fault_of(alloc, &bytes[..len]) {
            Some(
                OpeningFault::NotAnOpening {
                    reason: Reason::Truncated,
                    ..
                },
            ) => {}
            _ => return Some(len),
        }
    }
    None
}

#[test]
fn is_refused_where_it_is_truncated(rt: HostRuntime) -> Result<(), Fail> {
    let bytes = bytes_of(rt.alloc())?;
    assert_eq!(rt; not_truncated(rt.alloc(), &bytes), None);
    Ok(())
}

/// A byte that makes the opening's bytes those of none: its offset and value, and the fault's offset and reason.
const FAULTS: &[(usize, u8, usize, Reason)] = &[
    // Another format, and an answer of no kind.
    (0, 2, 0, Reason::Unknown),
    (SECOND_AT, 9, SECOND_AT, Reason::Unknown),
    // A filtered arrival has no number.
    (ARRIVALS_AT + 8, 1, ARRIVALS_AT + 4, Reason::Unknown),
    // Two deliveries to one destination, one to destination 32, and a text that would end its block.
    (DELIVERIES_AT + 17, 0, SECOND_AT, Reason::Unknown),
    (DELIVERIES_AT + 17, 32, SECOND_AT, Reason::Unknown),
    (DELIVERIES_AT + 22, 0x1C, SECOND_AT, Reason::Unknown),
    // A text of its own that is the one received.
    (DELIVERIES_AT + 31, b'B', SECOND_AT, Reason::Unknown),
    // No plan, counters that don't add up, and arrivals of one index.
    (29, b'x', 25, Reason::NotAPlan),
    (COUNTERS_AT + 11, 4, COUNTERS_AT, Reason::Counters),
    (SECOND_AT + 12, 3, ARRIVALS_AT, Reason::Order),
];

/// The fault of bytes with this one in place of another, and puts the other back.
fn fault_with(alloc: Global, bytes: &mut [u8], at: usize, byte: u8) -> Option<OpeningFault> {
    let before = bytes.get(at).copied()?;
    set(bytes, at, byte);
    let fault = fault_of(alloc, bytes);
    set(bytes, at, before);
    fault
}

/// Puts a byte where another is.
fn set(bytes: &mut [u8], at: usize, byte: u8) {
    if let Some(old) = bytes.get_mut(at) {
        *old = byte;
    }
}

/// The first offset at which another byte is not refused as its row says, if there is one.
fn other_fault(alloc: Global, bytes: &mut [u8]) -> Option<usize> {
    for (at, byte, fault_at, reason) in FAULTS {
        let wanted = OpeningFault::NotAnOpening {
            at: *fault_at,
            reason: *reason,
        };
        if fault_with(alloc, bytes, *at, *byte) != Some(wanted) {
            return Some(*at);
        }
    }
    None
}

#[test]
fn is_refused_for_each_reason(rt: HostRuntime) -> Result<(), Fail> {
    let mut bytes = bytes_of(rt.alloc())?;
    assert_eq!(rt; other_fault(rt.alloc(), &mut bytes), None);
    Ok(())
}

#[test]
fn is_refused_where_a_byte_follows(rt: HostRuntime) -> Result<(), Fail> {
    let mut bytes = bytes_of(rt.alloc())?;
    let len = bytes.len();
    bytes.push(0)?;
    let longer = OpeningFault::NotAnOpening {
        at: len,
        reason: Reason::Longer,
    };
    assert_eq!(rt; fault_of(rt.alloc(), &bytes), Some(longer));
    Ok(())
}
