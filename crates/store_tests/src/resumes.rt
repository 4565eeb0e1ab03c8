//! A book goes on from an opening, and from none that contradicts itself.

ghost use Rattle.std.specs.Prelude.{◌≡◌, IfOk};

use crate::maps::{FIRST, Rows, SECOND, delivery, in_order, text};
use book_core::Book;
use book_resume::{ResumeFault, resume};
use dest_queue::{Slot, SlotState, Slots};
use event_log::{Remembered, Snapshot, Told};
use plan_text::Plan;
use stat_count::Counts;
use std::alloc::Global;
use std::hash::RandomState;
use std::sync::Arc;
use std::test::Fail;

/// A plan of one channel and one destination, which is sent each message twice at most.
const PLAN: &str = "[[destination]]\nname = \"LAB\"\naddress = \"127.0.0.1:6661\"\nattempts = 2\n\n\
    [[channel]]\nname = \"ADT\"\nlisten = \"127.0.0.1:6660\"\ntypes = [\"ADT\"]\nprocessing = [\"P\"]\n\
    versions = [\"2.5.1\"]\n[[channel.route]]\nto = \"LAB\"\n";

/// The state of a slot whose first attempt has failed.
const WAITING: SlotState = SlotState::Waiting {
    attempts: 1,
    due: 1_700_000_000,
};

/// The plan, for each owner that shares it.
fn plan(alloc: Global) -> Result<Arc<Plan>, Fail> {
    match Plan::read(alloc, PLAN.as_bytes()) {
        Ok(plan) => Ok(Arc::new(alloc, plan)?),
        Err(_) => Err(Fail::from("no plan")),
    }
}

/// A message that was accepted as message 1, with these bytes and a slot in this state.
fn accepted(alloc: Global, bytes: &[u8], state: SlotState) -> Result<Remembered, Fail>
    ensures { IfOk result (λ r. r.place ≡ 7) }
{
    let raw = text(alloc, bytes)?;
    let deliveries = delivery(&raw)?;
    let mut slots = Slots::new(alloc);
    slots.push(Slot {
        destination: 0,
        state,
    })?;
    Ok(Remembered::new(7, 0, raw, Told::Accepted(1), Some(deliveries), slots))
}

/// An opening of a message that was filtered and of one that was accepted as message 1, with these bytes and a slot in this
/// state. Message 0 is forgotten.
fn opening(alloc: Global, second: &[u8], state: SlotState) -> Result<Snapshot, Fail> {
    let first = text(alloc, FIRST)?;
    let filtered = Remembered::new(3, 0, first, Told::Filtered, None, Slots::new(alloc));
    let remembered = in_order(alloc, filtered, accepted(alloc, second, state)?)?;
    Ok(Snapshot::of(plan(alloc)?, 1000, 40, 2, 0, 1, Counts::new(), remembered))
}

/// The book that goes on from the opening.
fn resumed(
    rt: &HostRuntime,
    second: &[u8],
    state: SlotState,
) -> Result<Result<Book<Rows>, ResumeFault>, Fail> {
    let opening = opening(rt.alloc(), second, state)?;
    Ok(resume::<Rows>(rt.alloc(), opening, RandomState::new(rt)?))
}

/// Whether a book has 40 entries and two messages, of which message 1 alone is remembered and waits.
fn has_gone_on(book: &mut Book<Rows>) -> bool {
    // One attempt is left: a take and its settlement, or a cancellation.
    let is_owed = book.owed() == 3 && book.front(0).map(|front| front.number) == Some(1);
    let is_known = book.remembered() == 1 && book.has_control_id(b"M2", 1);
    is_owed && is_known && book.len() == 40 && book.message_count() == 2
}

#[test]
fn a_book_goes_on_from_an_opening(rt: HostRuntime) -> Result<(), Fail> {
    let mut book = resumed(&rt, SECOND, WAITING)??;
    let has_gone_on = has_gone_on(&mut book);
    assert!(rt; has_gone_on);
    Ok(())
}

/// Why no book goes on from the opening, where none does.
fn fault(rt: &HostRuntime, second: &[u8], state: SlotState) -> Result<Option<ResumeFault>, Fail> {
    Ok(resumed(rt, second, state)?.err())
}

#[test]
fn an_opening_that_is_none_of_a_book_is_refused(rt: HostRuntime) -> Result<(), Fail> {
    // The second message has the key of the first; an attempt is under way; no attempt is left; the bytes are no message.
    for (second, state) in [
        (FIRST, WAITING),
        (SECOND, SlotState::InFlight { attempt: 1 }),
        (
            SECOND,
            SlotState::Waiting {
                attempts: 2,
                due: 0,
            },
        ),
        (b"PID|1".as_slice(), WAITING),
    ] {
        let fault = fault(&rt, second, state)?;
        assert_eq!(rt; fault, Some(ResumeFault::NotGood));
    }
    Ok(())
}
