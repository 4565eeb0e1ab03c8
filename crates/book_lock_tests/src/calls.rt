//! Calls of a shared book answer as the book's do.

use crate::stage::{Done, M1, M2, Task, UPDATE, Waiting, comes_out};
use book_core::{BookRows, CancelRefusal, EVENTS_MAX, TakeRefusal, Ticket};
use book_lock::{Desk, Shared, Sharing, Station};
use conn_worker::nearest;
use dest_queue::{FailCause, Outcome, SettleRefusal, SlotState};
use log::Log;
use plan_text::Plan;
use stat_count::Counts;
use std::alloc::Global;
use std::hash::RandomState;
use std::sync::{Arc, Wait};
use std::test::Fail;

/// A call with its answer.
#[derive(Clone, Copy)]
enum Call {
    /// The destination and the moment of a take, with the control id and the text of the job.
    Sends(u32, u64, &'static str, &'static str),
    /// The destination and the moment of a take.
    Take(u32, u64, Result<Ticket, TakeRefusal>),
    /// The ticket, the outcome and the moment of a settlement.
    Settle(Ticket, Outcome, u64, Result<SlotState, SettleRefusal>),
    /// The number of a message that is cancelled.
    Cancel(u32, Result<u32, CancelRefusal>),
    /// The number of a message that is cancelled, and the mask of the destinations among which it is.
    CancelAmong(u32, u32, Result<u32, CancelRefusal>),
}

/// Calls of a book, and the slots of message 0 at the four first destinations after them.
struct Case {
    four: bool,
    messages: &'static [&'static str],
    calls: &'static [Call],
    slots: [Option<SlotState>; 4],
}

/// The first attempt of the first message at the first destination, its second and its third.
const FIRST: Ticket = Ticket {
    number: 0,
    destination: 0,
    attempt: 1,
};

const FIRST_AGAIN: Ticket = Ticket {
    number: 0,
    destination: 0,
    attempt: 2,
};

const FIRST_AT_LAST: Ticket = Ticket {
    number: 0,
    destination: 0,
    attempt: 3,
};

/// The first attempt of the first message at the second destination.
const TO_B: Ticket = Ticket {
    number: 0,
    destination: 1,
    attempt: 1,
};

/// An attempt at no destination.
const NOWHERE: Ticket = Ticket {
    number: 0,
    destination: 7,
    attempt: 1,
};

/// The first attempt of the second message there.
const SECOND: Ticket = Ticket {
    number: 1,
    destination: 0,
    attempt: 1,
};

const CANCELLED: Option<SlotState> = Some(SlotState::Failed(FailCause::Cancelled));

const CASES: [Case; 4] = [
    // delivered and rejected
    Case {
        four: false,
        messages: &[M1, M2],
        calls: &[
            Call::Sends(0, 0, "M1", M1),
            Call::Take(0, 0, Err(TakeRefusal::InFlightNow(0))),
            Call::Settle(
                FIRST_AGAIN,
                Outcome::Delivered,
                0,
                Err(SettleRefusal::NotInFlight(SlotState::InFlight { attempt: 1 })),
            ),
            Call::Settle(NOWHERE, Outcome::Delivered, 0, Err(SettleRefusal::NoSlot)),
            Call::Settle(FIRST, Outcome::Delivered, 0, Ok(SlotState::Delivered)),
            Call::Take(0, 0, Ok(SECOND)),
            Call::Settle(
                SECOND,
                Outcome::Rejected,
                0,
                Ok(SlotState::Failed(FailCause::Rejected)),
            ),
            Call::Take(0, 0, Err(TakeRefusal::Idle)),
            Call::Settle(
                SECOND,
                Outcome::Rejected,
                0,
                Err(SettleRefusal::NotInFlight(SlotState::Failed(FailCause::Rejected))),
            ),
        ],
        slots: [Some(SlotState::Delivered), None, None, None],
    },
    // three attempts, ten seconds apart
    Case {
        four: false,
        messages: &[M1, M2],
        calls: &[
            Call::Take(0, 100, Ok(FIRST)),
            Call::Take(0, 100, Err(TakeRefusal::InFlightNow(0))),
            Call::Settle(
                FIRST,
                Outcome::Again,
                100,
                Ok(SlotState::Waiting {
                    attempts: 1,
                    due: 110,
                }),
            ),
            Call::Take(0, 109, Err(TakeRefusal::NotDue(110))),
            Call::Take(0, 110, Ok(FIRST_AGAIN)),
            Call::Settle(
                FIRST_AGAIN,
                Outcome::Again,
                111,
                Ok(SlotState::Waiting {
                    attempts: 2,
                    due: 121,
                }),
            ),
            Call::Take(0, 121, Ok(FIRST_AT_LAST)),
            Call::Settle(
                FIRST_AT_LAST,
                Outcome::Again,
                121,
                Ok(SlotState::Failed(FailCause::Exhausted)),
            ),
            Call::Take(0, 121, Ok(SECOND)),
        ],
        slots: [
            Some(SlotState::Failed(FailCause::Exhausted)),
            None,
            None,
            None,
        ],
    },
    // cancelled where it waits
    Case {
        four: true,
        messages: &[UPDATE],
        calls: &[
            Call::Take(1, 0, Ok(TO_B)),
            Call::Cancel(0, Ok(12)),
            Call::Settle(TO_B, Outcome::Delivered, 0, Ok(SlotState::Delivered)),
            Call::Settle(
                TO_B,
                Outcome::Delivered,
                0,
                Err(SettleRefusal::NotInFlight(SlotState::Delivered)),
            ),
            Call::Cancel(0, Err(CancelRefusal::NothingWaiting)),
            Call::Settle(FIRST, Outcome::Delivered, 0, Err(SettleRefusal::NoSlot)),
            Call::Cancel(9, Err(CancelRefusal::NoSuchMessage)),
        ],
        slots: [None, Some(SlotState::Delivered), CANCELLED, CANCELLED],
    },
    // cancelled among some destinations
    Case {
        four: true,
        messages: &[UPDATE],
        calls: &[
            Call::CancelAmong(0, 4, Ok(4)),
            Call::CancelAmong(0, 4, Err(CancelRefusal::NothingWaiting)),
            Call::Take(1, 0, Ok(TO_B)),
            Call::CancelAmong(0, 7, Err(CancelRefusal::NothingWaiting)),
            Call::CancelAmong(0, 10, Ok(8)),
            Call::CancelAmong(9, 2, Err(CancelRefusal::NoSuchMessage)),
            Call::Settle(TO_B, Outcome::Delivered, 0, Ok(SlotState::Delivered)),
        ],
        slots: [None, Some(SlotState::Delivered), CANCELLED, CANCELLED],
    },
];

/// Whether a take returns a job with this control id and this text.
fn sends<A: Sharing, S: BookRows, H: Wait + Log>(
    rt: &H,
    shared: &Shared<A, S>,
    station: &mut Station<A>,
    d: u32,
    now: u64,
    control_id: &str,
    text: &str,
) -> bool {
    let Ok(job) = shared.take(rt, station, d, nearest(now)) else {
        return false;
    };
    job.ticket == FIRST
        && job.control_id.as_slice() == control_id.as_bytes()
        && job.payload.as_slice() == text.as_bytes()
}

/// Whether a take returns this ticket, or is refused so.
fn takes<A: Sharing, S: BookRows, H: Wait + Log>(
    rt: &H,
    shared: &Shared<A, S>,
    station: &mut Station<A>,
    d: u32,
    now: u64,
    due: Result<Ticket, TakeRefusal>,
) -> bool {
    match shared.take(rt, station, d, nearest(now)) {
        Ok(job) => due == Ok(job.ticket),
        Err(refusal) => due == Err(refusal),
    }
}

/// Whether a call is answered as is due.
fn is_met<A: Sharing, S: BookRows, H: Wait + Log>(
    rt: &H,
    shared: &Shared<A, S>,
    station: &mut Station<A>,
    call: Call,
) -> bool {
    match call {
        Call::Sends(d, now, control_id, text) => {
            sends(rt, shared, station, d, now, control_id, text)
        }
        Call::Take(d, now, due) => takes(rt, shared, station, d, now, due),
        Call::Settle(ticket, outcome, now, due) => {
            shared.settle(rt, station, &ticket, outcome, nearest(now)) == due
        }
        Call::Cancel(number, due) => shared.cancel(rt, number) == due,
        Call::CancelAmong(number, among, due) => shared.cancel_among(rt, number, among) == due,
    }
}

/// The first of these calls that is answered otherwise than is due; those behind it aren't made.
fn first_unmet<A: Sharing, S: BookRows, H: Wait + Log>(
    rt: &H,
    shared: &Shared<A, S>,
    station: &mut Station<A>,
    calls: &[Call],
) -> Option<usize> {
    for (place, call) in calls.iter().enumerate() {
        if !is_met(rt, shared, station, *call) {
            return Some(place);
        }
    }
    None
}

/// What the calls of a case answered, and what was shown after them.
#[derive(Drop)]
struct Answers {
    /// The first call that was answered otherwise.
    unmet: Option<usize>,
    shown: Counts,
    plan: Arc<Plan>,
}

impl Task for Case {
    type Answer = Answers;

    fn work<A: Sharing, S: BookRows, H: Wait + Log>(
        &self,
        rt: &H,
        _: Global,
        shared: &Shared<A, S>,
        desks: &mut [Desk<A>],
        stations: &mut [Station<A>],
    ) -> Option<Answers> {
        let (desk, station) = (desks.first_mut()?, stations.first_mut()?);
        Some(Answers {
            unmet: first_unmet(rt, shared, station, self.calls),
            shown: shared.counts(rt, desk),
            plan: shared.plan(rt).ok()?,
        })
    }

    /// Whether each call was answered as is due, the slots are as they are to be, the statistics shown before the close are
    /// those of the closed book, and the plan shown is its plan.
    fn is_right<S: BookRows>(&self, done: &Done<Answers, S>) -> bool {
        let (answers, book, slots) = (&done.answer, done.closed.book(), self.slots);
        answers.unmet.is_none()
            && answers.shown == *book.counts()
            && answers.plan.same(book.plan())
            && book.status(0, 0) == slots[0]
            && book.status(0, 1) == slots[1]
            && book.status(0, 2) == slots[2]
            && book.status(0, 3) == slots[3]
    }
}

/// Each case comes out as it is to.
#[test]
fn cases(rt: HostRuntime) -> Result<(), Fail> {
    let hasher = RandomState::new(&rt)?;
    for (place, case) in CASES.iter().enumerate() {
        let due = Waiting {
            four: case.four,
            room: EVENTS_MAX,
            messages: case.messages,
        };
        let right = comes_out(&rt, rt.alloc(), hasher, &due, case)?;
        assert!(rt; right, "case {place}");
    }
    Ok(())
}
