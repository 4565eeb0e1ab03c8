//! A shared book of which messages are forgotten.

use crate::stage::{Done, M1, M2, Rows, Task, Waiting, bring, filled, is_done_right};
use book_core::{Book, BookRows, CancelRefusal, EVENTS_MAX, PruneRefusal, Receipt, Told};
use book_lock::{Desk, Shared, Sharing, Station, audit};
use conn_worker::nearest;
use dest_queue::{Outcome, SlotState};
use log::Log;
use std::alloc::Global;
use std::hash::RandomState;
use std::slice;
use std::sync::Wait;
use std::test::Fail;

/// The results of two prunings, of a cancellation afterwards, and of the forgotten message when it was repeated.
#[derive(Drop)]
struct Answers {
    first: Result<(), PruneRefusal>,
    second: Result<(), PruneRefusal>,
    cancelled: Result<u32, CancelRefusal>,
    receipt: Receipt,
}

/// Forgets messages, at first one too many, cancels the first, and brings it again.
struct Prunings;

impl Task for Prunings {
    type Answer = Answers;

    fn work<A: Sharing, S: BookRows, H: Wait + Log>(
        &self,
        rt: &H,
        alloc: Global,
        shared: &Shared<A, S>,
        desks: &mut [Desk<A>],
        stations: &mut [Station<A>],
    ) -> Option<Answers> {
        let desk = desks.first_mut()?;
        Some(Answers {
            first: shared.prune(rt, 2),
            second: shared.prune(rt, 1),
            cancelled: shared.cancel(rt, 0),
            receipt: bring(rt, alloc, shared, desk, 0, M1)?,
        })
    }

    /// Whether the second message was not forgotten, and the first was and is accepted again as a new one.
    fn is_right<S: BookRows>(&self, done: &Done<Answers, S>) -> bool {
        let answers = &done.answer;
        answers.first == Err(PruneRefusal::StillLive(1))
            && answers.second == Ok(())
            && answers.cancelled == Err(CancelRefusal::NoSuchMessage)
            && answers.receipt.told == Told::Accepted(2)
            && answers.receipt.entry == 4
            && audit(&done.closed, slice::from_ref(&answers.receipt)).is_ok()
    }
}

/// Whether the front of queue 0 is delivered.
fn delivers_front<S: BookRows>(book: &mut Book<S>) -> bool {
    let Ok(job) = book.take(0, nearest(0)) else {
        return false;
    };
    book.settle(&job.ticket, Outcome::Delivered, nearest(0)) == Ok(SlotState::Delivered)
}

/// A book in which two messages wait.
const TWO: Waiting = Waiting {
    four: false,
    room: EVENTS_MAX,
    messages: &[M1, M2],
};

/// Whether the first of two messages is delivered, and the prunings of their book come out as they are to.
fn comes_out<H: Wait + Log>(rt: &H, alloc: Global, hasher: RandomState) -> Result<bool, Fail> {
    let mut book = filled::<Rows>(alloc, hasher, &TWO)?;
    let delivered = delivers_front(&mut book);
    let right = is_done_right(rt, alloc, book, &Prunings);
    Ok(delivered && right)
}

/// Of two messages the first was delivered: the second is not forgotten, the first is, and comes again as a new message.
#[test]
fn delivered_messages_are_forgotten(rt: HostRuntime) -> Result<(), Fail> {
    let right = comes_out(&rt, rt.alloc(), RandomState::new(&rt)?)?;
    assert!(rt; right);
    Ok(())
}
