//! Delivering where one request for memory may be refused, as `rt try --test --fail-alloc N` refuses the Nth.

use crate::played::{Play, Played};
use crate::stage::{BLOCKS, Course, Delivered, Rows, deliver_all, waiting};
use book_core::BookRows;
use delivery_worker::DeliverEnd;
use dest_queue::SlotState;
use stat_count::DestinationCounts;
use std::alloc::Global;
use std::test::Fail;

/// Each send is answered by an acceptance of both messages.
const ACCEPTED: Play = Play::Says(
    "\x0bMSH|^~\\&|LAB|HOSP|ENG|HUB|20231114221301||ACK^A01^ACK|1|P|2.5.1\rMSA|AA|M1\r\x1c\r\x0bMSH|^~\\&|LAB|HOSP|ENG|HUB|20231114221301||ACK^A01^ACK|2|P|2.5.1\rMSA|AA|M2\r\x1c\r",
);

/// More sends than the two messages and one retry take.
const PLAYS: [Play; 6] = [ACCEPTED; 6];

/// More turns than they take.
const TURNS: Course = Course::Turns(12);

/// A link that needs no further memory. None where memory was refused for it.
fn roomy_link(alloc: Global) -> Option<Played<'static>> {
    let mut link = Played::new(alloc, &PLAYS);
    link.sent.reserve(4_096).ok()?;
    Some(link)
}

/// How often the first bytes are the block, and what comes behind them.
fn pass_over<'a>(bytes: &'a [u8], block: &str) -> (u64, &'a [u8]) {
    let (mut times, mut rest) = (0_u64, bytes);
    for _ in 0..PLAYS.len() {
        let Some((front, behind)) = rest.split_at_checked(block.len()) else {
            break;
        };
        if front != block.as_bytes() {
            break;
        }
        (times, rest) = (times.saturating_add(1), behind);
    }
    (times, rest)
}

/// Whether the first message was sent, perhaps twice, then the second, perhaps twice, and nothing else: as often as
/// attempts were made, or once less where one found no memory for its block.
fn is_sent_in_order(sent: &[u8], taken: u64) -> bool {
    let (first, rest) = pass_over(sent, BLOCKS[0]);
    let (second, rest) = pass_over(rest, BLOCKS[1]);
    let sends = first.saturating_add(second);
    rest.is_empty()
        && first > 0
        && second > 0
        && (sends == taken || sends.saturating_add(1) == taken)
}

/// Whether both messages are delivered, each attempt is settled, and the statistics count them.
fn is_settled<S: BookRows>(delivered: &Delivered<S>) -> bool {
    let (book, report) = (delivered.closed.book(), &delivered.report);
    let due = DestinationCounts {
        waiting: 0,
        inflight: 0,
        delivered: 2,
        failed: 0,
        attempts: report.taken,
    };
    book.status(0, 0) == Some(SlotState::Delivered)
        && book.status(1, 0) == Some(SlotState::Delivered)
        && book.queue_len(0) == 0
        && book.counts().destination(0) == due
}

/// Whether at most one attempt was made again, and each message was sent and delivered, in order.
fn is_right<S: BookRows>(delivered: &Delivered<S>, sent: &[u8]) -> bool {
    let report = &delivered.report;
    is_settled(delivered)
        && is_sent_in_order(sent, report.taken)
        && (report.end, report.delivered, report.rejected) == (DeliverEnd::Drained, 2, 0)
        && report.again <= 1
}

/// Whichever request is refused: at most one attempt is made again, no job is left in flight, and both messages are
/// delivered, in order.
#[test]
fn holds_where_memory_is_refused(rt: HostRuntime) -> Result<(), Fail> {
    let Some(mut link) = roomy_link(rt.alloc()) else {
        return Ok(());
    };
    let Some(delivered) = deliver_all(&rt, rt.alloc(), waiting::<Rows>(&rt, 2), &mut link, TURNS)
    else {
        return Ok(());
    };
    assert!(rt; is_right(&delivered, &link.sent), "{:?}", delivered.report);
    Ok(())
}

/// With memory to spare each message is sent once.
#[test]
fn all_is_done_with_memory_to_spare(rt: HostRuntime) -> Result<(), Fail> {
    let Some(mut link) = roomy_link(rt.alloc()) else {
        return Err("memory".into());
    };
    let Some(delivered) = deliver_all(&rt, rt.alloc(), waiting::<Rows>(&rt, 2), &mut link, TURNS)
    else {
        return Err("memory".into());
    };
    assert!(rt; is_right(&delivered, &link.sent) && delivered.report.taken == 2);
    Ok(())
}
