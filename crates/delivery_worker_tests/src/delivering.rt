//! Deliveries of the built-in plan's destination, whose messages are sent three times at most, ten seconds apart.

use crate::played::{Play, Played};
use crate::stage::{BLOCKS, Course, Delivered, Rows, deliver_all, waiting};
use book_core::{Book, BookRows};
use delivery_worker::{DeliverEnd, DeliverReport, Reply};
use dest_queue::{FailCause, SlotState};
use hl7_head::AckCode;
use log::Log;
use std::alloc::Global;
use std::sync::Wait;
use std::test::Fail;
use std::time;

/// What a destination does, and what is to come of it.
struct Case {
    name: &'static str,
    messages: usize,
    plays: &'static [Play],
    turns: u64,
    report: DeliverReport,
    connections: u32,
    /// The state of the first message at the end.
    state: SlotState,
}

pub const ACCEPTED: Play = Play::Says(
    "\x0bMSH|^~\\&|LAB|HOSP|ENG|HUB|20231114221301||ACK^A01^ACK|1|P|2.5.1\rMSA|AA|M1\r\x1c\r",
);

pub const SECOND_ACCEPTED: Play = Play::Says(
    "\x0bMSH|^~\\&|LAB|HOSP|ENG|HUB|20231114221301||ACK^A01^ACK|2|P|2.5.1\rMSA|AA|M2\r\x1c\r",
);

const IN_ERROR: Play = Play::Says(
    "\x0bMSH|^~\\&|LAB|HOSP|ENG|HUB|20231114221301||ACK^A01^ACK|1|P|2.5.1\rMSA|AE|M1\r\x1c\r",
);

const REJECTED: Play = Play::Says(
    "\x0bMSH|^~\\&|LAB|HOSP|ENG|HUB|20231114221301||ACK^A01^ACK|1|P|2.5.1\rMSA|AR|M1\r\x1c\r",
);
/// Both are answered at once.
const BOTH_ACCEPTED: Play = Play::Says(
    "\x0bMSH|^~\\&|LAB|HOSP|ENG|HUB|20231114221301||ACK^A01^ACK|1|P|2.5.1\rMSA|AA|M1\r\x1c\r\x0bMSH|^~\\&|LAB|HOSP|ENG|HUB|20231114221301||ACK^A01^ACK|2|P|2.5.1\rMSA|AA|M2\r\x1c\r",
);
/// Nine blocks that are passed over, and then the answer.
const TENTH_ACCEPTED: Play = Play::Says(
    "\x0b1\x1c\r\x0b2\x1c\r\x0b3\x1c\r\x0b4\x1c\r\x0b5\x1c\r\x0b6\x1c\r\x0b7\x1c\r\x0b8\x1c\r\x0b9\x1c\r\x0bMSH|^~\\&|LAB|HOSP|ENG|HUB|20231114221301||ACK^A01^ACK|1|P|2.5.1\rMSA|AA|M1\r\x1c\r",
);

const DRIPPED: Play = Play::Drips(
    "\x0bMSH|^~\\&|LAB|HOSP|ENG|HUB|20231114221301||ACK^A01^ACK|1|P|2.5.1\rMSA|AA|M1\r\x1c\r",
);
/// An answer to the first message, and one that rejects the second.
pub const LEFT_OVER: Play = Play::Says(
    "\x0bMSH|^~\\&|LAB|HOSP|ENG|HUB|20231114221301||ACK^A01^ACK|1|P|2.5.1\rMSA|AA|M1\r\x1c\r\x0bMSH|^~\\&|LAB|HOSP|ENG|HUB|20231114221301||ACK^A01^ACK|2|P|2.5.1\rMSA|AR|M2\r\x1c\r",
);

const CASES: [Case; 13] = [
    Case {
        name: "all is well",
        messages: 2,
        plays: &[ACCEPTED, SECOND_ACCEPTED],
        turns: 9,
        report: DeliverReport {
            taken: 2,
            delivered: 2,
            again: 0,
            rejected: 0,
            end: DeliverEnd::Drained,
        },
        connections: 1,
        state: SlotState::Delivered,
    },
    Case {
        name: "it is down, then in error, and then well",
        messages: 1,
        plays: &[Play::Down, IN_ERROR, ACCEPTED],
        turns: 9,
        report: DeliverReport {
            taken: 3,
            delivered: 1,
            again: 2,
            rejected: 0,
            end: DeliverEnd::Drained,
        },
        connections: 1,
        state: SlotState::Delivered,
    },
    Case {
        name: "the turns are spent",
        messages: 2,
        plays: &[ACCEPTED, SECOND_ACCEPTED],
        turns: 1,
        report: DeliverReport {
            taken: 1,
            delivered: 1,
            again: 0,
            rejected: 0,
            end: DeliverEnd::TurnsSpent,
        },
        connections: 1,
        state: SlotState::Delivered,
    },
    Case {
        name: "it sends a byte for ever",
        messages: 1,
        plays: &[Play::Hums(b'x'), ACCEPTED],
        turns: 9,
        report: DeliverReport {
            taken: 2,
            delivered: 1,
            again: 1,
            rejected: 0,
            end: DeliverEnd::Drained,
        },
        connections: 2,
        state: SlotState::Delivered,
    },
    Case {
        name: "it rejects",
        messages: 1,
        plays: &[REJECTED],
        turns: 9,
        report: DeliverReport {
            taken: 1,
            delivered: 0,
            again: 0,
            rejected: 1,
            end: DeliverEnd::Drained,
        },
        connections: 1,
        state: SlotState::Failed(FailCause::Rejected),
    },
    Case {
        name: "it hangs up before it answers",
        messages: 1,
        plays: &[Play::Says("\x0bMSH|"), ACCEPTED],
        turns: 9,
        report: DeliverReport {
            taken: 2,
            delivered: 1,
            again: 1,
            rejected: 0,
            end: DeliverEnd::Drained,
        },
        connections: 2,
        state: SlotState::Delivered,
    },
    Case {
        name: "it ends a new connection unasked",
        messages: 1,
        plays: &[Play::Ends, ACCEPTED],
        turns: 9,
        report: DeliverReport {
            taken: 2,
            delivered: 1,
            again: 1,
            rejected: 0,
            end: DeliverEnd::Drained,
        },
        connections: 2,
        state: SlotState::Delivered,
    },
    Case {
        name: "the second answer is there before the second message",
        messages: 2,
        plays: &[BOTH_ACCEPTED, Play::Says("")],
        turns: 9,
        report: DeliverReport {
            taken: 2,
            delivered: 2,
            again: 0,
            rejected: 0,
            end: DeliverEnd::Drained,
        },
        connections: 1,
        state: SlotState::Delivered,
    },
    Case {
        name: "the tenth block is read after the next send",
        messages: 1,
        plays: &[TENTH_ACCEPTED, Play::Says("")],
        turns: 9,
        report: DeliverReport {
            taken: 2,
            delivered: 1,
            again: 1,
            rejected: 0,
            end: DeliverEnd::Drained,
        },
        connections: 1,
        state: SlotState::Delivered,
    },
    Case {
        name: "it answers a byte at a time",
        messages: 1,
        plays: &[DRIPPED],
        turns: 9,
        report: DeliverReport {
            taken: 1,
            delivered: 1,
            again: 0,
            rejected: 0,
            end: DeliverEnd::Drained,
        },
        connections: 1,
        state: SlotState::Delivered,
    },
    Case {
        name: "nothing can be received",
        messages: 1,
        plays: &[Play::Breaks, ACCEPTED],
        turns: 9,
        report: DeliverReport {
            taken: 2,
            delivered: 1,
            again: 1,
            rejected: 0,
            end: DeliverEnd::Drained,
        },
        connections: 2,
        state: SlotState::Delivered,
    },
    Case {
        name: "nothing can be sent over the connection that was kept",
        messages: 2,
        plays: &[ACCEPTED, Play::Unsent, SECOND_ACCEPTED],
        turns: 9,
        report: DeliverReport {
            taken: 3,
            delivered: 2,
            again: 1,
            rejected: 0,
            end: DeliverEnd::Drained,
        },
        connections: 2,
        state: SlotState::Delivered,
    },
    Case {
        name: "it is down for good",
        messages: 1,
        plays: &[Play::Down, Play::Down, Play::Down],
        turns: 9,
        report: DeliverReport {
            taken: 3,
            delivered: 0,
            again: 3,
            rejected: 0,
            end: DeliverEnd::Drained,
        },
        connections: 0,
        state: SlotState::Failed(FailCause::Exhausted),
    },
];

/// Whether the bytes are the two blocks in their order.
pub(crate) fn are_both(bytes: &[u8]) -> bool {
    match bytes.split_at_checked(BLOCKS[0].len()) {
        Some((first, second)) => { first == BLOCKS[0].as_bytes() && second == BLOCKS[1].as_bytes() }
        None => false,
    }
}

/// Whether a case comes out as it is to. What was sent of two messages are two blocks in their order.
fn is_right<S: BookRows>(case: &Case, link: &Played<'_>, delivered: &Delivered<S>) -> bool {
    let all = case.messages == 2 && case.turns > 1;
    delivered.report == case.report
        && link.connections == case.connections
        && delivered.closed.book().status(0, 0) == Some(case.state)
        && (!all || are_both(&link.sent))
}

/// Whether a case comes out as it is to, with the book in which its messages wait. It doesn't where memory was refused.
fn comes_out<S: BookRows + Drop, H: Wait + time::Clock + Log>(
    rt: &H,
    alloc: Global,
    book: Option<Book<S>>,
    case: &Case,
) -> bool {
    let mut link = Played::new(alloc, case.plays);
    match deliver_all(rt, alloc, book, &mut link, Course::Turns(case.turns)) {
        Some(delivered) => is_right(case, &link, &delivered),
        None => false,
    }
}

/// Whether the bytes are the first block, and the second one twice.
fn is_doubled(bytes: &[u8]) -> bool {
    match bytes.split_at_checked(bytes.len().saturating_sub(BLOCKS[1].len())) {
        Some((both, second)) => are_both(both) && second == BLOCKS[1].as_bytes(),
        None => false,
    }
}

/// Whether a message is sent over a new connection, within the attempt, where the one that was kept has ended before an answer.
fn is_sent_again<S: BookRows + Drop, H: Wait + time::Clock + Log>(
    rt: &H,
    alloc: Global,
    book: Option<Book<S>>,
) -> bool {
    let plays = [ACCEPTED, Play::Ends, SECOND_ACCEPTED];
    let mut link = Played::new(alloc, &plays);
    match deliver_all(rt, alloc, book, &mut link, Course::Turns(9)) {
        Some(delivered) => {
            delivered.report == CASES[0].report && link.connections == 2 && is_doubled(&link.sent)
        }
        None => false,
    }
}

/// Whether an answer that was left over on a connection that has ended decides nothing: the message is sent over a new one.
fn forgets_what_was_left<S: BookRows + Drop, H: Wait + time::Clock + Log>(
    rt: &H,
    alloc: Global,
    book: Option<Book<S>>,
) -> bool {
    let plays = [LEFT_OVER, SECOND_ACCEPTED];
    let mut link = Played::new(alloc, &plays);
    link.closes_when_kept = true;
    match deliver_all(rt, alloc, book, &mut link, Course::Turns(9)) {
        Some(delivered) => {
            delivered.report == CASES[0].report && link.connections == 2 && are_both(&link.sent)
        }
        None => false,
    }
}

/// An answer is left over, and the connection is seen to have ended before the next send.
#[test]
fn left_over(rt: HostRuntime) -> Result<(), Fail> {
    let book = waiting::<Rows>(&rt, 2);
    assert!(rt; forgets_what_was_left(&rt, rt.alloc(), book));
    Ok(())
}

/// How often bytes were asked for to deliver the one message of a book, what the answers to the last attempt said, and the
/// state of the message then. None where memory was refused.
fn deliver_one<S: BookRows + Drop, H: Wait + time::Clock + Log>(
    rt: &H,
    alloc: Global,
    book: Option<Book<S>>,
    plays: &[Play],
    turns: u64,
) -> Option<(u64, Option<(Reply, Option<SlotState>)>)> {
    let mut link = Played::new(alloc, plays);
    let _delivered = deliver_all(rt, alloc, book, &mut link, Course::Turns(turns))?;
    Some((link.receives, link.told))
}

/// An attempt makes as many receives as it takes, and a million at most.
#[test]
fn receives(rt: HostRuntime) -> Result<(), Fail> {
    let waits = Some(SlotState::Waiting {
        attempts: 1,
        due: 30,
    });
    let delivered = Some((Reply::Code(Some(AckCode::AA)), Some(SlotState::Delivered)));
    let rows = [
        (DRIPPED, 77, delivered),
        (Play::Hums(b'x'), 1_000_000, Some((Reply::Nothing, waits))),
        (Play::Ends, 1, Some((Reply::Nothing, waits))),
        (IN_ERROR, 1, Some((Reply::Code(Some(AckCode::AE)), waits))),
    ];
    for (play, receives, told) in rows {
        let book = waiting::<Rows>(&rt, 1);
        let came = deliver_one(&rt, rt.alloc(), book, &[play], 1);
        assert_eq!(rt; came, Some((receives, told)));
    }
    Ok(())
}

/// A connection that was kept ends before an answer.
#[test]
fn kept(rt: HostRuntime) -> Result<(), Fail> {
    let book = waiting::<Rows>(&rt, 2);
    assert!(rt; is_sent_again(&rt, rt.alloc(), book));
    Ok(())
}

/// Each case comes out as it is to.
#[test]
fn cases(rt: HostRuntime) -> Result<(), Fail> {
    for case in &CASES {
        let book = waiting::<Rows>(&rt, case.messages);
        let right = comes_out(&rt, rt.alloc(), book, case);
        assert!(rt; right, "{}", case.name);
    }
    Ok(())
}
