//! Deliveries where the system's clock is set back.

use crate::played::{Play, Played, SetBack};
use crate::stage::{Course, Rows, deliver_by, waiting};
use book_core::{Book, BookRows};
use conn_worker::{Clock, Running, Steady, nearest};
use delivery_worker::DeliverEnd;
use log::Log;
use std::alloc::Global;
use std::sync::Wait;
use std::test::Fail;
use std::time;

/// What a destination is asked for twice.
const PLAYS: [Play; 2] = [
    Play::Down,
    Play::Says(
        "\x0bMSH|^~\\&|LAB|HOSP|ENG|HUB|20231114221301||ACK^A01^ACK|1|P|2.5.1\rMSA|AA|M1\r\x1c\r",
    ),
];

/// How a message is delivered by a clock that goes on, and by one that is set back before its second attempt.
#[test]
fn set_back(rt: HostRuntime) -> Result<(), Fail> {
    let (by_steady, by_running) = (SetBack::new(), SetBack::new());
    let book = waiting::<Rows>(&rt, 1);
    assert!(rt; is_delivered(&rt, rt.alloc(), book, &mut Steady::new(&by_steady)));
    let book = waiting::<Rows>(&rt, 1);
    assert!(rt; !is_delivered(&rt, rt.alloc(), book, &mut Running(&by_running)));
    Ok(())
}

/// Whether the message is delivered in the second attempt.
fn is_delivered<S: BookRows + Drop, H: Wait + time::Clock + Log, C: Clock>(
    rt: &H,
    alloc: Global,
    book: Option<Book<S>>,
    clock: &mut C,
) -> bool {
    let mut link = Played::new(alloc, &PLAYS);
    match deliver_by(rt, alloc, book, &mut link, clock, Course::Turns(9)) {
        Some(delivered) => {
            (delivered.report.end, delivered.report.delivered) == (DeliverEnd::Drained, 1)
        }
        None => false,
    }
}

/// Each look at the clock in turn: it began at 996,400 seconds and 41 seconds of the monotonic clock.
#[test]
fn rounding(rt: HostRuntime) -> Result<(), Fail> {
    let system = SetBack::new();
    let mut clock = Steady::new(&system);
    assert_eq!(rt; clock.at_take(), nearest(996_420));
    assert_eq!(rt; clock.at_settlement(), nearest(996_441));
    assert_eq!(rt; clock.at_settlement(), nearest(996_462));
    assert_eq!(rt; clock.now(), nearest(978_400));
    assert_eq!(rt; clock.at_take(), nearest(996_502));
    Ok(())
}
