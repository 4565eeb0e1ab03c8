//! What was left over of an answer, where the connection is lost before the next one, and turns that a refused take costs.

use crate::played::{Leaping, Play, Played};
use crate::stage::{Course, deliver_all, deliver_by, waiting};
use book_core::{Book, BookRows, Outbound};
use delivery_worker::{DeliverEnd, DeliverReport};
use dest_queue::{Queued, SlotState};
use log::Log;
use record_list::RecordList;
use std::alloc::Global;
use std::sync::Wait;
use std::test::Fail;
use std::time;

/// The rows of these tests' books.
type Linked = RecordList<Queued<Outbound>>;

/// The first message is accepted, and behind that comes an answer that rejects the second one.
const AND_REJECTED: Play = Play::Says(
    "\x0bMSH|^~\\&|LAB|HOSP|ENG|HUB|20231114221301||ACK^A01^ACK|1|P|2.5.1\rMSA|AA|M1\r\x1c\r\x0bMSH|^~\\&|LAB|HOSP|ENG|HUB|20231114221301||ACK^A01^ACK|2|P|2.5.1\rMSA|AR|M2\r\x1c\r",
);

/// The same, where the two last bytes of the second answer are missing.
const AND_CUT_OFF: Play = Play::Says(
    "\x0bMSH|^~\\&|LAB|HOSP|ENG|HUB|20231114221301||ACK^A01^ACK|1|P|2.5.1\rMSA|AA|M1\r\x1c\r\x0bMSH|^~\\&|LAB|HOSP|ENG|HUB|20231114221301||ACK^A01^ACK|2|P|2.5.1\rMSA|AR|M2\r",
);

/// The two last bytes of a block, and then the acceptance of the second message.
const END_AND_ACCEPTED: Play = Play::Says(
    "\x1c\r\x0bMSH|^~\\&|LAB|HOSP|ENG|HUB|20231114221301||ACK^A01^ACK|2|P|2.5.1\rMSA|AA|M2\r\x1c\r",
);

/// What a destination does, and over how many connections both messages are delivered.
struct Case {
    name: &'static str,
    plays: &'static [Play],
    report: DeliverReport,
    connections: u32,
}

/// Both messages are delivered, one of them in its second attempt.
const AFTER_A_FAULT: DeliverReport = DeliverReport {
    taken: 3,
    delivered: 2,
    again: 1,
    rejected: 0,
    end: DeliverEnd::Drained,
};

const CASES: [Case; 3] = [
    Case {
        name: "a whole answer is left over, and the next send fails",
        plays: &[AND_REJECTED, Play::Unsent, END_AND_ACCEPTED],
        report: AFTER_A_FAULT,
        connections: 2,
    },
    Case {
        name: "a part of an answer is left over, and the next send fails",
        plays: &[AND_CUT_OFF, Play::Unsent, END_AND_ACCEPTED],
        report: AFTER_A_FAULT,
        connections: 2,
    },
    Case {
        name: "a part of an answer is left over, and the next receive fails",
        plays: &[AND_CUT_OFF, Play::Breaks, END_AND_ACCEPTED],
        report: AFTER_A_FAULT,
        connections: 2,
    },
];

/// Whether a case comes out as it is to. It doesn't where memory was refused.
fn comes_out<S: BookRows + Drop, H: Wait + time::Clock + Log>(
    rt: &H,
    alloc: Global,
    book: Option<Book<S>>,
    case: &Case,
) -> bool {
    let mut link = Played::new(alloc, case.plays);
    match deliver_all(rt, alloc, book, &mut link, Course::Turns(99)) {
        Some(delivered) => {
            delivered.report == case.report
                && link.connections == case.connections
                && delivered.closed.book().status(1, 0) == Some(SlotState::Delivered)
        }
        None => false,
    }
}

/// Nothing that a lost connection left over decides about a message, be it a whole answer or the beginning of one.
#[test]
fn cases(rt: HostRuntime) -> Result<(), Fail> {
    for case in &CASES {
        let book = waiting::<Linked>(&rt, 2);
        let right = comes_out(&rt, rt.alloc(), book, case);
        assert!(rt; right, "{}", case.name);
    }
    Ok(())
}

/// The result of delivering one message in a number of turns, by a clock that goes on by a second at each look, where the
/// destination is down and then accepts it.
fn deliver_in<S: BookRows + Drop, H: Wait + time::Clock + Log>(
    rt: &H,
    alloc: Global,
    book: Option<Book<S>>,
    turns: u64,
) -> Option<DeliverReport> {
    let plays = [Play::Down, crate::delivering::ACCEPTED];
    let mut link = Played::new(alloc, &plays);
    let mut clock = Leaping {
        seconds: 0,
        leap: 1,
    };
    let course = Course::Turns(turns);
    Some(deliver_by(rt, alloc, book, &mut link, &mut clock, course)?.report)
}

/// The first attempt is taken at 0 and settled at 1, so that the second is due at 11. Each take before it is refused, at 2 and
/// on, and costs a turn.
#[test]
fn a_refused_take_costs_a_turn(rt: HostRuntime) -> Result<(), Fail> {
    let rows = [
        (10, 1, 0, DeliverEnd::TurnsSpent),
        (11, 2, 1, DeliverEnd::TurnsSpent),
        (12, 2, 1, DeliverEnd::Drained),
    ];
    for (turns, taken, delivered, end) in rows {
        let due = DeliverReport {
            taken,
            delivered,
            again: 1,
            rejected: 0,
            end,
        };
        let book = waiting::<Linked>(&rt, 1);
        let report = deliver_in(&rt, rt.alloc(), book, turns);
        assert_eq!(rt; report, Some(due), "{turns} turns");
    }
    Ok(())
}
