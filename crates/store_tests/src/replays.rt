//! Each kind of record written and read, and small histories replayed.

use book_core::{Book, EVENTS_MAX, Outbound, Ticket, Told};
use book_replay::{ReplayError, ReplayFault, replay, settle_flights};
use dest_queue::{Outcome, Queued, SlotState};
use event_records::{
    ReadError, Record, RecordFault, put_record, read_batch, read_record, write_batch,
};
use hl7_head::{Cause, Moment};
use judge_core::Text;
use plan_text::Plan;
use record_list::RecordList;
use std::alloc::{AllocError, Global};
use std::hash::RandomState;
use std::slice;
use std::sync::Arc;
use std::test::*;

type Rows = RecordList<Queued<Outbound>>;

/// A plan of one channel with one destination, which is sent each message three times at most.
const PLAN: &str = "[[destination]]\nname = \"LAB\"\naddress = \"127.0.0.1:6661\"\nattempts = 3\n\n\
    [[channel]]\nname = \"ADT\"\nlisten = \"127.0.0.1:6660\"\ntypes = [\"ADT\"]\nprocessing = [\"P\"]\n\
    versions = [\"2.5.1\"]\n[[channel.route]]\nto = \"LAB\"\n";

/// A message that the channel takes.
const MESSAGE: &str =
    "MSH|^~\\&|REG|HOSP|ENG|HUB|20231114221300||ADT^A01^ADT_A01|M1|P|2.5.1\rPID|1||77^^^H\r";

/// An arrival of a text on the channel, with its answer.
fn arrival(alloc: Global, text: &str, told: Told) -> Result<Record, AllocError> {
    Ok(Record::Arrival {
        conn: 7,
        channel: 0,
        raw: Text::new(alloc, Vec::from_slice(alloc, text.as_bytes())?)?,
        told,
    })
}

/// A take from the only queue.
fn taken() -> Record {
    Record::Take {
        destination: 0,
        now: Moment::epoch(),
    }
}

/// The settlement of an attempt of message 0.
fn settled(attempt: u32, outcome: Outcome) -> Record {
    Record::Settle {
        ticket: Ticket {
            number: 0,
            destination: 0,
            attempt,
        },
        outcome,
        now: Moment::epoch(),
    }
}

/// The deployment of the plan.
fn deployed(alloc: Global) -> Result<Record, AllocError> {
    Ok(Record::Deploy {
        document: Text::new(alloc, Vec::from_slice(alloc, PLAN.as_bytes())?)?,
    })
}

/// Adds an arrival with each kind of answer.
fn add_arrivals(alloc: Global, records: &mut Vec<Record>) -> Result<(), AllocError> {
    let answers = [
        Told::Accepted(0),
        Told::Filtered,
        Told::Refused(Cause::UnsupportedType),
        Told::Refused(Cause::PlanChanged),
        Told::Repeat(4),
    ];
    for told in answers {
        records.push(arrival(alloc, MESSAGE, told)?)?;
    }
    Ok(())
}

/// Adds a record of each other kind, and a settlement with each outcome.
fn add_others(alloc: Global, records: &mut Vec<Record>) -> Result<(), AllocError> {
    records.push(taken())?;
    for outcome in [Outcome::Delivered, Outcome::Again, Outcome::Rejected] {
        records.push(settled(2, outcome))?;
    }
    records.push(Record::Cancel {
        number: 3,
        among: 5,
    })?;
    records.push(deployed(alloc)?)?;
    records.push(Record::Prune { before: 2 })?;
    Ok(())
}

/// The encoding of twelve records: of each kind, with each kind of answer and each outcome.
fn encoded(alloc: Global) -> Result<Vec<u8>, AllocError> {
    let mut records = Vec::new(alloc);
    add_arrivals(alloc, &mut records)?;
    add_others(alloc, &mut records)?;
    write_batch(alloc, records.as_slice())
}

/// Whether twelve records and a 9 behind them are read from bytes, and the records are written as this encoding again.
fn is_written_again(alloc: Global, bytes: &[u8], encoding: &[u8]) -> Result<bool, Fail> {
    let (records, rest) = read_batch(alloc, bytes)?;
    let again = write_batch(alloc, records.as_slice())?;
    Ok(records.len() == 12 && rest == [9].as_slice() && again.as_slice() == encoding)
}

/// Whether an encoding of twelve records is read back, with what is behind it.
fn is_read_back(alloc: Global, encoding: &[u8]) -> Result<bool, Fail> {
    let mut bytes = Vec::from_slice(alloc, encoding)?;
    bytes.push(9)?;
    is_written_again(alloc, bytes.as_slice(), encoding)
}

/// Whether bytes end within a batch.
fn is_truncated(alloc: Global, bytes: &[u8]) -> bool {
    matches!(
        read_batch(alloc, bytes),
        Err(ReadError::Fault(RecordFault::Truncated))
    )
}

/// Whether no beginning of bytes is a batch.
fn are_truncated(alloc: Global, bytes: &[u8]) -> bool {
    for end in 0..bytes.len() {
        if !is_truncated(alloc, &bytes[..end]) {
            return false;
        }
    }
    true
}

/// What was written is read again with what is behind it, and no beginning of it is a batch.
#[test]
fn batch_is_read_back(rt: HostRuntime) -> Result<(), Fail> {
    let alloc = rt.alloc();
    let bytes = encoded(alloc)?;
    let counted = bytes.as_slice().starts_with(&[0, 0, 0, 12]);
    let back = is_read_back(alloc, bytes.as_slice())?;
    let truncated = are_truncated(alloc, bytes.as_slice());
    assert!(rt; counted && back && truncated);
    Ok(())
}

/// A cancellation, as the format has it.
const CANCELLATION: [u8; 26] = [
    3, 0, 0, 0, 1, 2, 0, 0, 0, 5, 0, 0, 0, 0, 0, 0, 0, 0, 0, 0, 0, 0, 0, 0, 0, 0,
];

/// Whether a record is the cancellation, and is encoded as the format has it.
fn is_cancellation(alloc: Global, read: &Record) -> Result<bool, AllocError> {
    let right = matches!(
        read,
        Record::Cancel {
            number: 258,
            among: 5
        }
    );
    let mut bytes = Vec::new(alloc);
    put_record(&mut bytes, read)?;
    Ok(right && bytes.as_slice() == CANCELLATION.as_slice())
}

/// Whether the cancellation is read and written as the format has it.
fn is_kept(alloc: Global) -> Result<bool, Fail> {
    let (read, rest) = read_record(alloc, &CANCELLATION)?;
    Ok(rest.is_empty() && is_cancellation(alloc, &read)?)
}

/// Whether a cancellation with another value of a byte is refused as one that no record has.
fn is_unknown(alloc: Global, at: usize, value: u8) -> bool {
    let mut bytes = CANCELLATION;
    match bytes.get_mut(at) {
        Some(byte) => *byte = value,
        None => return false,
    }
    matches!(
        read_record(alloc, &bytes),
        Err(ReadError::Fault(RecordFault::Unknown))
    )
}

/// A record is encoded as the format says. A kind that there is not, and an unused field that isn't 0, are refused.
#[test]
fn fields_are_where_the_format_has_them(rt: HostRuntime) -> Result<(), Fail> {
    let alloc = rt.alloc();
    let kept = is_kept(alloc)?;
    assert!(rt; kept);
    for (at, value) in [(0, 6), (1, 1), (13, 1), (21, 1)] {
        let refused = is_unknown(alloc, at, value);
        assert!(rt; refused, "at {at}");
    }
    Ok(())
}

/// An empty book of the plan.
fn empty_book(rt: &HostRuntime) -> Result<Book<Rows>, Fail> {
    let alloc = rt.alloc();
    let hasher = RandomState::new(rt)?;
    let Ok(plan) = Plan::read(alloc, PLAN.as_bytes()) else {
        return Err("no plan".into());
    };
    Ok(Book::new(alloc, Arc::new(alloc, plan)?, EVENTS_MAX, hasher))
}

/// Adds a message that is sent twice, and another one, which was answered `second` and is cancelled.
fn add_messages(alloc: Global, records: &mut Vec<Record>, second: Told) -> Result<(), AllocError> {
    let other = "MSH|^~\\&|REG|HOSP|ENG|HUB|20231114221300||ADT^A01^ADT_A01|M2|P|2.5.1\r";
    records.push(arrival(alloc, MESSAGE, Told::Accepted(0))?)?;
    records.push(taken())?;
    records.push(settled(1, Outcome::Again))?;
    records.push(arrival(alloc, other, second)?)?;
    records.push(arrival(alloc, MESSAGE, Told::Repeat(0))?)?;
    records.push(Record::Cancel {
        number: 1,
        among: u32::MAX,
    })?;
    Ok(())
}

/// Adds the delivery of the first message, a deployment and a pruning.
fn add_delivery(alloc: Global, records: &mut Vec<Record>) -> Result<(), AllocError> {
    records.push(Record::Take {
        destination: 0,
        now: Moment::of_unix(1_000_000).unwrap_or(Moment::epoch()),
    })?;
    records.push(settled(2, Outcome::Delivered))?;
    records.push(deployed(alloc)?)?;
    records.push(Record::Prune { before: 1 })?;
    Ok(())
}

/// A message that is sent twice, another that is cancelled, a deployment and a pruning: each of its records, of which the
/// arrival of the second message was answered `second`.
fn history(alloc: Global, second: Told) -> Result<Vec<Record>, AllocError> {
    let mut records = Vec::new(alloc);
    add_messages(alloc, &mut records, second)?;
    add_delivery(alloc, &mut records)?;
    Ok(records)
}

/// Whether records are replayed, and the book has then nine entries, one pruning and one message.
fn is_replayed(alloc: Global, book: &mut Book<Rows>, records: &[Record]) -> bool {
    let replayed = replay(alloc, book, records).is_ok();
    replayed && book.len() == 9 && book.prunings() == 1 && book.remembered() == 1
}

/// Each event is booked again.
#[test]
fn history_is_replayed(rt: HostRuntime) -> Result<(), Fail> {
    let alloc = rt.alloc();
    let records = history(alloc, Told::Accepted(1))?;
    let mut book = empty_book(&rt)?;
    let replayed = is_replayed(alloc, &mut book, records.as_slice());
    assert!(rt; replayed);
    Ok(())
}

/// What a replay of records, over an empty book, ends with.
fn end_of(rt: &HostRuntime, records: &[Record]) -> Result<Result<(), ReplayError>, Fail> {
    let mut book = empty_book(rt)?;
    Ok(replay(rt.alloc(), &mut book, records))
}

/// What a replay of the history ends with, the arrival of whose second message was answered `second`.
fn end_with(rt: &HostRuntime, second: Told) -> Result<Result<(), ReplayError>, Fail> {
    let records = history(rt.alloc(), second)?;
    end_of(rt, records.as_slice())
}

/// What a replay of the arrival of a text, by itself, ends with.
fn end_at(rt: &HostRuntime, text: &str) -> Result<Result<(), ReplayError>, Fail> {
    let record = arrival(rt.alloc(), text, Told::Filtered)?;
    end_of(rt, slice::from_ref(&record))
}

/// That a replay stopped.
fn stopped(index: usize, fault: ReplayFault) -> Result<(), ReplayError> {
    Err(ReplayError { index, fault })
}

/// A replay stops where an answer differs, where the book refuses an event, and at what is no event.
#[test]
fn replay_stops_where_it_has_to(rt: HostRuntime) -> Result<(), Fail> {
    let differs = end_with(&rt, Told::Filtered)?;
    let refused = end_of(&rt, &[taken()])?;
    let invalid = end_at(&rt, "no message")?;
    assert_eq!(rt; differs, stopped(3, ReplayFault::Differs));
    assert_eq!(rt; refused, stopped(0, ReplayFault::Refused));
    assert_eq!(rt; invalid, stopped(0, ReplayFault::Invalid));
    Ok(())
}

/// Whether one attempt is settled, and message 0 then waits after it.
fn is_settled(alloc: Global, book: &mut Book<Rows>) -> Result<bool, Fail> {
    let settled = settle_flights(alloc, book, Moment::epoch())?;
    let waits = matches!(
        book.status(0, 0),
        Some(SlotState::Waiting { attempts: 1, .. })
    );
    Ok(settled.len() == 1 && waits)
}

/// An arrival and its take.
fn in_flight(alloc: Global) -> Result<Vec<Record>, AllocError> {
    let mut records = Vec::new(alloc);
    add_flight(alloc, &mut records)?;
    Ok(records)
}

/// Adds an arrival and its take.
fn add_flight(alloc: Global, records: &mut Vec<Record>) -> Result<(), AllocError> {
    records.push(arrival(alloc, MESSAGE, Told::Accepted(0))?)?;
    records.push(taken())?;
    Ok(())
}

/// An attempt that was in flight is settled, and its record is returned.
#[test]
fn flight_is_settled(rt: HostRuntime) -> Result<(), Fail> {
    let alloc = rt.alloc();
    let records = in_flight(alloc)?;
    let mut book = empty_book(&rt)?;
    let replayed = replay(alloc, &mut book, records.as_slice()).is_ok();
    let settled = is_settled(alloc, &mut book)?;
    assert!(rt; replayed && settled);
    Ok(())
}
