//! Serving at a desk of a shared book where one request for memory may be refused, as `rt try --test --fail-alloc N` refuses
//! the Nth.

ghost use Rattle.std.specs.Prelude.{◌<◌};

use crate::devices::{Cut, Devices, SMOOTH, Sink, Source};
use crate::stage::{Done, Rows, Task, empty_book, plan, share};
use book_core::{BookRows, EVENTS_MAX};
use book_lock::{Closed, Desk, Shared, Sharing, Station, audit, rising};
use conn_worker::{Counted, ServeEnd, ServeReport, Still, nearest, serve};
use log::Log;
use stat_count::Counts;
use std::alloc::Global;
use std::hash::RandomState;
use std::sync::Wait;
use std::test::Fail;

/// Two admissions, of which the first requests an accept acknowledgment and the second both.
const MESSAGES: &str =
    "\x0bMSH|^~\\&|REG|HOSP|ENG|HUB|20231114221300||ADT^A01^ADT_A01|M1|P|2.5.1|||AL|NE\rPID|1||77^^^H\r\x1c\r\x0bMSH|^~\\&|REG|HOSP|ENG|HUB|20231114221300||ADT^A01^ADT_A01|M3|P|2.5.1|||AL|AL\rPID|1||77^^^H\r\x1c\r";

/// What acknowledges the first message where it was booked, and where it found no memory.
const FIRST: &str =
    "\x0bMSH|^~\\&|ENG|HUB|REG|HOSP|20231114221320+0000||ACK^A01^ACK|0.1|P|2.5.1|||NE|NE\rMSA|CA|M1\r\x1c\r";

const FIRST_REFUSED: &str =
    "\x0bMSH|^~\\&|ENG|HUB|REG|HOSP|20231114221320+0000||ACK^A01^ACK|0.1|P|2.5.1|||NE|NE\rMSA|CE|M1|NoMemory\r\x1c\r";

/// The same of the second, and the first of its two acknowledgments.
const SECOND: &str =
    "\x0bMSH|^~\\&|ENG|HUB|REG|HOSP|20231114221320+0000||ACK^A01^ACK|0.2|P|2.5.1|||NE|NE\rMSA|CA|M3\r\x1c\r\x0bMSH|^~\\&|ENG|HUB|REG|HOSP|20231114221320+0000||ACK^A01^ACK|0.3|P|2.5.1|||NE|NE\rMSA|AA|M3\r\x1c\r";

const SECOND_REFUSED: &str =
    "\x0bMSH|^~\\&|ENG|HUB|REG|HOSP|20231114221320+0000||ACK^A01^ACK|0.2|P|2.5.1|||NE|NE\rMSA|CE|M3|NoMemory\r\x1c\r";

const SECOND_FRONT: &str =
    "\x0bMSH|^~\\&|ENG|HUB|REG|HOSP|20231114221320+0000||ACK^A01^ACK|0.2|P|2.5.1|||NE|NE\rMSA|CA|M3\r\x1c\r";

/// The result of serving: the report, what was written, the arrivals that the desk counted, and the statistics that were
/// shown before and after.
#[derive(Drop)]
struct Course {
    report: ServeReport,
    written: Vec<u8>,
    made: u64,
    before: Counts,
    after: Counts,
}

/// A writer that needs no further memory. None where memory was refused for it.
fn roomy_sink(alloc: Global, devices: Devices) -> Option<Sink> {
    let mut sink = Sink::new(alloc, devices);
    sink.bytes.reserve(4_096).ok()?;
    Some(sink)
}

/// Serves the two messages at a desk, over these devices.
fn serve_at<A: Sharing, S: BookRows, H: Wait + Log>(
    rt: &H,
    alloc: Global,
    shared: &Shared<A, S>,
    desk: &mut Desk<A>,
    devices: Devices,
    sink: Sink,
) -> Course
    requires channel { 0 < A.channels }
{
    let mut reader = Counted::new(Source::new(MESSAGES.as_bytes(), devices));
    let mut writer = Counted::new(sink);
    let mut clock = Still(nearest(1_700_000_000));
    let before = shared.counts(rt, desk);
    let report = serve(
        rt,
        alloc,
        shared,
        desk,
        0,
        0,
        &mut reader,
        &mut writer,
        &mut clock,
    );
    let sink = writer.into_inner();
    Course {
        report,
        written: sink.bytes,
        made: desk.made(),
        before,
        after: shared.counts(rt, desk),
    }
}

/// Whether bytes are one text behind another.
fn are_both(bytes: &[u8], first: &str, second: &str) -> bool {
    match bytes.split_at_checked(first.len()) {
        Some((front, rest)) => front == first.as_bytes() && rest == second.as_bytes(),
        None => false,
    }
}

/// Whether this many messages may have been booked, where this was written and serving ended so. A message that found no
/// memory is answered so, or the connection ends.
fn may_be(end: ServeEnd, booked: usize, written: &[u8]) -> bool {
    match (end, booked) {
        (ServeEnd::End, 2) => are_both(written, FIRST, SECOND),
        (ServeEnd::End, 1) => {
            are_both(written, FIRST_REFUSED, SECOND) || are_both(written, FIRST, SECOND_REFUSED)
        }
        (ServeEnd::NoMemory, 0) => written.is_empty(),
        (ServeEnd::NoMemory, 1) => written.is_empty() || are_both(written, FIRST, ""),
        (ServeEnd::NoMemory, 2) => {
            are_both(written, FIRST, "") || are_both(written, FIRST, SECOND_FRONT)
        }
        _ => false,
    }
}

/// Whether the book has the messages of the receipts, in order, waiting to be delivered, and nothing else.
fn has_the_booked<S: BookRows>(course: &Course, closed: &Closed<S>) -> bool {
    let (book, receipts) = (closed.book(), course.report.receipts.as_slice());
    let booked = receipts.len();
    book.len() == booked
        && book.queue_len(0) == booked as u64
        && course.made == booked as u64
        && rising(receipts)
        && audit(closed, receipts).is_ok()
        && course.after == *book.counts()
        && (booked > 0 || course.before == course.after)
}

/// Serves the two messages at a desk, from a stream that is cut so.
#[derive(Clone, Copy)]
struct Serving {
    cut: Cut,
}

impl Task for Serving {
    type Answer = Course;

    /// None where memory was refused before.
    fn work<A: Sharing, S: BookRows, H: Wait + Log>(
        &self,
        rt: &H,
        alloc: Global,
        shared: &Shared<A, S>,
        desks: &mut [Desk<A>],
        _: &mut [Station<A>],
    ) -> Option<Course> {
        if shared.plan(rt).ok()?.channels() == 0 {
            return None;
        }
        let desk = desks.first_mut()?;
        let devices = Devices {
            cut: self.cut,
            ..SMOOTH
        };
        let sink = roomy_sink(alloc, devices)?;
        Some(serve_at(rt, alloc, shared, desk, devices, sink))
    }

    /// Whether what was answered is what was booked, and the book has nothing else.
    fn is_right<S: BookRows>(&self, served: &Done<Course, S>) -> bool {
        let course = &served.answer;
        let report = &course.report;
        may_be(report.end, report.receipts.len(), &course.written)
            && has_the_booked(course, &served.closed)
    }
}

/// One message comes behind the other, or both in one piece.
const IN_TWO: Serving = Serving {
    cut: Cut::BehindEachEnd,
};

const IN_ONE: Serving = Serving { cut: Cut::Nowhere };

/// The outcome of serving: whether what was answered is what was booked, how it ended, and how many messages were booked.
#[derive(Clone, Copy)]
struct Told {
    right: bool,
    end: ServeEnd,
    booked: usize,
}

/// The outcome of serving.
fn told_of<S: BookRows>(serving: &Serving, served: &Done<Course, S>) -> Told {
    let report = &served.answer.report;
    Told {
        right: serving.is_right(served),
        end: report.end,
        booked: report.receipts.len(),
    }
}

/// Serves the two messages by an empty book of the built-in plan, and returns the outcome. None where memory was refused before.
fn serve_by<H: Wait + Log>(
    rt: &H,
    alloc: Global,
    hasher: RandomState,
    serving: &Serving,
) -> Option<Told> {
    let plan = plan(alloc, false)?;
    let book = empty_book::<Rows>(alloc, hasher, plan, EVENTS_MAX);
    match share(rt, alloc, book, serving) {
        Ok(served) => Some(told_of(serving, &served)),
        Err(_) => None,
    }
}

/// Whichever request is refused: what was answered is what was booked, and the book has nothing else.
#[test]
fn holds_where_memory_is_refused(rt: HostRuntime) -> Result<(), Fail> {
    let hasher = RandomState::new(&rt)?;
    let Some(told) = serve_by(&rt, rt.alloc(), hasher, &IN_TWO) else {
        return Ok(());
    };
    assert!(rt; told.right, "{:?}, {} booked", told.end, told.booked);
    Ok(())
}

/// Whether both messages were booked and acknowledged.
fn all_is_done(told: Option<Told>) -> bool {
    let Some(told) = told else {
        return false;
    };
    told.right && told.end == ServeEnd::End && told.booked == 2
}

/// With memory to spare both are booked and acknowledged.
#[test]
fn all_is_done_with_memory_to_spare(rt: HostRuntime) -> Result<(), Fail> {
    let told = serve_by(&rt, rt.alloc(), RandomState::new(&rt)?, &IN_TWO);
    assert!(rt; all_is_done(told));
    Ok(())
}

/// Messages that come in one piece are booked in the order in which they come.
#[test]
fn messages_of_a_piece_are_booked_in_order(rt: HostRuntime) -> Result<(), Fail> {
    let told = serve_by(&rt, rt.alloc(), RandomState::new(&rt)?, &IN_ONE);
    assert!(rt; all_is_done(told));
    Ok(())
}
