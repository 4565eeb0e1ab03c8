//! Deliveries of the built-in plan's destination until they are halted.

use crate::delivering::{ACCEPTED, LEFT_OVER, SECOND_ACCEPTED, are_both};
use crate::played::{Play, Played};
use crate::stage::{Course, Delivered, Rows, deliver_all, waiting};
use book_core::{Book, BookRows};
use delivery_worker::{DeliverEnd, DeliverReport};
use dest_queue::{FailCause, SlotState};
use log::Log;
use std::alloc::Global;
use std::sync::Wait;
use std::test::Fail;
use std::time;

/// The state of a message that was never taken.
const UNSENT: Option<SlotState> = Some(SlotState::Waiting {
    attempts: 0,
    due: 0,
});

/// The state of a message that was delivered.
const DELIVERED: Option<SlotState> = Some(SlotState::Delivered);

/// What a destination does, how delivering goes on, and what is to come of it.
struct Case {
    name: &'static str,
    messages: usize,
    plays: &'static [Play],
    course: Course,
    /// How many attempts were made, how many of them delivered, and how many were rejected.
    attempts: (u64, u64, u64),
    end: DeliverEnd,
    /// The states of the two messages.
    states: [Option<SlotState>; 2],
}

const CASES: [Case; 9] = [
    Case {
        name: "all is delivered",
        messages: 2,
        plays: &[ACCEPTED, SECOND_ACCEPTED],
        course: Course::Looks(9),
        attempts: (2, 2, 0),
        end: DeliverEnd::Drained,
        states: [DELIVERED, DELIVERED],
    },
    Case {
        name: "a destination that can't be reached costs no attempt",
        messages: 1,
        plays: &[Play::Down, Play::Down, Play::Down, Play::Down],
        course: Course::Looks(3),
        attempts: (0, 0, 0),
        end: DeliverEnd::Halted,
        states: [UNSENT, None],
    },
    Case {
        name: "it is delivered in the first attempt once it can be reached",
        messages: 1,
        plays: &[Play::Down, Play::Down, ACCEPTED],
        course: Course::Looks(9),
        attempts: (1, 1, 0),
        end: DeliverEnd::Drained,
        states: [DELIVERED, None],
    },
    Case {
        name: "what is left of an earlier answer is the next one's answer",
        messages: 2,
        plays: &[LEFT_OVER, SECOND_ACCEPTED],
        course: Course::Turns(9),
        attempts: (2, 1, 1),
        end: DeliverEnd::Drained,
        states: [DELIVERED, Some(SlotState::Failed(FailCause::Rejected))],
    },
    Case {
        name: "what is left of an earlier answer is dropped",
        messages: 2,
        plays: &[LEFT_OVER, SECOND_ACCEPTED],
        course: Course::Looks(9),
        attempts: (2, 2, 0),
        end: DeliverEnd::Drained,
        states: [DELIVERED, DELIVERED],
    },
    Case {
        name: "what is not taken when it is halted is still queued",
        messages: 2,
        plays: &[ACCEPTED, SECOND_ACCEPTED],
        course: Course::Looks(1),
        attempts: (1, 1, 0),
        end: DeliverEnd::Halted,
        states: [DELIVERED, UNSENT],
    },
    Case {
        name: "nothing is sent once it is halted",
        messages: 1,
        plays: &[ACCEPTED],
        course: Course::Looks(0),
        attempts: (0, 0, 0),
        end: DeliverEnd::Halted,
        states: [UNSENT, None],
    },
    Case {
        name: "a queue that is held is not taken from",
        messages: 2,
        plays: &[ACCEPTED, SECOND_ACCEPTED],
        course: Course::Held(2),
        attempts: (1, 1, 0),
        end: DeliverEnd::Held,
        states: [DELIVERED, UNSENT],
    },
    Case {
        name: "nor is one that is held while its destination is connected",
        messages: 1,
        plays: &[ACCEPTED],
        course: Course::Held(1),
        attempts: (0, 0, 0),
        end: DeliverEnd::Held,
        states: [UNSENT, None],
    },
];

/// Whether a case comes out as it is to. As much was sent as attempts were made.
fn is_right<S: BookRows>(case: &Case, link: &Played<'_>, delivered: &Delivered<S>) -> bool {
    let (taken, accepted, rejected) = case.attempts;
    let due = DeliverReport {
        taken,
        delivered: accepted,
        again: 0,
        rejected,
        end: case.end,
    };
    let book = delivered.closed.book();
    delivered.report == due
        && [book.status(0, 0), book.status(1, 0)] == case.states
        && (taken > 0 || link.sent.is_empty())
        && (taken < 2 || are_both(&link.sent))
}

/// Whether a case comes out as it is to, with the book in which its messages wait. It doesn't where memory was refused.
fn comes_out<S: BookRows + Drop, H: Wait + time::Clock + Log>(
    rt: &H,
    alloc: Global,
    book: Option<Book<S>>,
    case: &Case,
) -> bool {
    let mut link = Played::new(alloc, case.plays);
    match deliver_all(rt, alloc, book, &mut link, case.course) {
        Some(delivered) => is_right(case, &link, &delivered),
        None => false,
    }
}

/// Each case comes out as it is to.
#[test]
fn cases(rt: HostRuntime) -> Result<(), Fail> {
    for case in &CASES {
        let book = waiting::<Rows>(&rt, case.messages);
        let right = comes_out(&rt, rt.alloc(), book, case);
        assert!(rt; right, "{}", case.name);
    }
    Ok(())
}
