//! Records are decoded.

ghost use Rattle.std.specs.Prelude.{◌≡◌, List, IfOk, Ok};
ghost use Rattle.std.specs.Int.{w32, w64};
ghost use Rattle.event_records.specs.inner.Decoding.{Gives, arrival_of, batch_at, cause_of, exactly, head_at, moment_of, number_at, numbers_at, outcome_of, record_at, record_from, record_of, records_at, settle_of, take_of, text_at, told_of};

use crate::fault::{ReadError, RecordFault};
use crate::head::Head;
use crate::record::Record;
use crate::writing::{head_of, text_of};
use dest_queue::Outcome;
use event_log::{Ticket, Told};
use fixed_numbers::LAST_MOMENT;
use hl7_head::{Cause, Moment};
use judge_core::Text;
use std::alloc::Global;

/// A number of four bytes, and the bytes behind it.
///
/// # Errors
///
/// `Truncated` where there are fewer bytes.
pub fn u32_at(bytes: &[u8]) -> Result<(u32, &[u8]), ReadError>
    ensures { Gives (λ x. (x.0, x.1.now)) result (number_at w32 bytes.now) }
{
    if bytes.len() < 4 {
        return Err(ReadError::Fault(RecordFault::Truncated));
    }
    let (front, rest) = bytes.split_at(4);
    let number = u32::from_be_bytes([front[0], front[1], front[2], front[3]]);
    Ok((number, rest))
}

/// A number of eight bytes, and the bytes behind it.
///
/// # Errors
///
/// `Truncated` where there are fewer bytes.
pub fn u64_at(bytes: &[u8]) -> Result<(u64, &[u8]), ReadError>
    ensures { Gives (λ x. (x.0, x.1.now)) result (number_at w64 bytes.now) }
{
    if bytes.len() < 8 {
        return Err(ReadError::Fault(RecordFault::Truncated));
    }
    let (front, rest) = bytes.split_at(8);
    let number = u64::from_be_bytes([
        front[0], front[1], front[2], front[3], front[4], front[5], front[6], front[7],
    ]);
    Ok((number, rest))
}

/// A text behind its length, and the bytes behind it.
///
/// # Errors
///
/// `Truncated` where the bytes end within the length or the text.
#[tactic(auto, unfolding(crate::specs::inner::Decoding::text_at))]
pub fn text_at(bytes: &[u8]) -> Result<(&[u8], &[u8]), ReadError>
    ensures { Gives (λ x. (x.0.now, x.1.now)) result (text_at bytes.now) }
{
    let (len, rest) = u32_at(bytes)?;
    let len = len as usize;
    if rest.len() < len {
        return Err(ReadError::Fault(RecordFault::Truncated));
    }
    let (text, rest) = rest.split_at(len);
    Ok((text, rest))
}

/// The numbers of a head of this kind and part, and the bytes behind them.
#[tactic(auto, unfolding(crate::specs::inner::Decoding::numbers_at))]
fn numbers_of(kind: u8, part: u8, bytes: &[u8]) -> Result<(Head, &[u8]), ReadError>
    ensures { Gives (λ x. (x.0, x.1.now)) result (numbers_at kind part bytes.now) }
{
    let (first, rest) = u32_at(bytes)?;
    let (second, rest) = u32_at(rest)?;
    let (third, rest) = u32_at(rest)?;
    let (moment, rest) = u64_at(rest)?;
    let head = Head {
        kind,
        part,
        first,
        second,
        third,
        moment,
    };
    Ok((head, rest))
}

/// A head, and the bytes behind it.
#[tactic(auto, unfolding(crate::specs::inner::Decoding::head_at))]
fn head_at(bytes: &[u8]) -> Result<(Head, &[u8]), ReadError>
    ensures { Gives (λ x. (x.0, x.1.now)) result (head_at bytes.now) }
{
    match bytes {
        [] | [_] => Err(ReadError::Fault(RecordFault::Truncated)),
        [kind, part, rest @ ..] => numbers_of(*kind, *part, rest),
    }
}

/// The cause of this code.
#[tactic(auto, unfolding(crate::specs::inner::Decoding::cause_of))]
fn cause_of(number: u32) -> Result<Cause, ReadError>
    ensures { Gives (λ x. x) result (cause_of number) }
{
    match number {
        1 => Ok(Cause::UnsupportedType),
        2 => Ok(Cause::UnsupportedProcessing),
        3 => Ok(Cause::UnsupportedVersion),
        4 => Ok(Cause::MissingControlId),
        5 => Ok(Cause::BadControlId),
        6 => Ok(Cause::SourceTransform),
        7 => Ok(Cause::RouteTransform),
        8 => Ok(Cause::IdReused),
        9 => Ok(Cause::NoMemory),
        10 => Ok(Cause::Full),
        11 => Ok(Cause::PlanChanged),
        _ => Err(ReadError::Fault(RecordFault::Unknown)),
    }
}

/// The answer of this kind and number.
///
/// # Errors
///
/// `Unknown` where no answer has them.
#[tactic(auto, unfolding(crate::specs::inner::Decoding::told_of))]
pub fn told_of(kind: u8, number: u32) -> Result<Told, ReadError>
    ensures { Gives (λ x. x) result (told_of kind number) }
{
    match kind {
        0 => Ok(Told::Accepted(number)),
        1 => Ok(Told::Filtered),
        2 => Ok(Told::Refused(cause_of(number)?)),
        3 => Ok(Told::Repeat(number)),
        _ => Err(ReadError::Fault(RecordFault::Unknown)),
    }
}

/// The outcome of this number.
#[tactic(auto, unfolding(crate::specs::inner::Decoding::outcome_of))]
fn outcome_of(kind: u8) -> Result<Outcome, ReadError>
    ensures { Gives (λ x. x) result (outcome_of kind) }
{
    match kind {
        0 => Ok(Outcome::Delivered),
        1 => Ok(Outcome::Again),
        2 => Ok(Outcome::Rejected),
        _ => Err(ReadError::Fault(RecordFault::Unknown)),
    }
}

/// The moment this many seconds after 1970 began.
#[tactic(auto, unfolding(crate::specs::inner::Decoding::moment_of))]
fn moment_of(seconds: u64) -> Result<Moment, ReadError>
    ensures { Gives (λ x. x) result (moment_of seconds) }
{
    if seconds > LAST_MOMENT {
        return Err(ReadError::Fault(RecordFault::Unknown));
    }
    match Moment::of_unix(seconds as i64) {
        Ok(moment) => Ok(moment),
        Err(_) => unreachable!(),
    }
}

/// An arrival.
#[tactic(auto, unfolding(crate::specs::inner::Decoding::arrival_of))]
fn arrival_of(alloc: Global, head: Head, text: &[u8]) -> Result<Record, ReadError>
    ensures { Gives (λ x. x) result (arrival_of head text.now) }
{
    let told = told_of(head.part, head.third)?;
    let raw = Text::new(alloc, Vec::from_slice(alloc, text)?)?;
    Ok(Record::Arrival {
        conn: head.first,
        channel: head.second,
        raw,
        told,
    })
}

/// A take.
#[tactic(auto, unfolding(crate::specs::inner::Decoding::take_of))]
fn take_of(head: Head) -> Result<Record, ReadError>
    ensures { Gives (λ x. x) result (take_of head) }
{
    let now = moment_of(head.moment)?;
    Ok(Record::Take {
        destination: head.first,
        now,
    })
}

/// A settlement.
#[tactic(auto, unfolding(crate::specs::inner::Decoding::settle_of))]
fn settle_of(head: Head) -> Result<Record, ReadError>
    ensures { Gives (λ x. x) result (settle_of head) }
{
    let outcome = outcome_of(head.part)?;
    let now = moment_of(head.moment)?;
    Ok(Record::Settle {
        ticket: Ticket {
            number: head.first,
            destination: head.second,
            attempt: head.third,
        },
        outcome,
        now,
    })
}

/// The record of this kind with these fields and this text.
#[tactic(auto, unfolding(crate::specs::inner::Decoding::record_of))]
fn record_of(alloc: Global, head: Head, text: &[u8]) -> Result<Record, ReadError>
    ensures { Gives (λ x. x) result (record_of head text.now) }
{
    match head.kind {
        0 => arrival_of(alloc, head, text),
        1 => take_of(head),
        2 => settle_of(head),
        3 => Ok(Record::Cancel {
            number: head.first,
            among: head.second,
        }),
        4 => Ok(Record::Deploy {
            document: Text::new(alloc, Vec::from_slice(alloc, text)?)?,
        }),
        5 => Ok(Record::Prune { before: head.first }),
        _ => Err(ReadError::Fault(RecordFault::Unknown)),
    }
}

/// A record whose fields and text are just these.
#[tactic(auto, unfolding(crate::specs::inner::Decoding::exactly))]
fn exactly(head: Head, text: &[u8], item: Record) -> Result<Record, ReadError>
    ensures { Gives (λ x. x) result (exactly head text.now item) }
{
    if head_of(&item).same(&head) && text_of(&item) == text {
        Ok(item)
    } else {
        Err(ReadError::Fault(RecordFault::Unknown))
    }
}

/// The record of a head and a text.
#[tactic(auto, unfolding(crate::specs::inner::Decoding::record_from))]
fn record_from(alloc: Global, head: Head, text: &[u8]) -> Result<Record, ReadError>
    ensures { Gives (λ x. x) result (record_from head text.now) }
{
    let record = record_of(alloc, head, text)?;
    exactly(head, text, record)
}

/// The record at the front, and the bytes behind it.
///
/// # Errors
///
/// The first fault of the bytes, or `NoMemory`.
#[tactic(auto, unfolding(crate::specs::inner::Decoding::record_at))]
pub fn read_record(alloc: Global, bytes: &[u8]) -> Result<(Record, &[u8]), ReadError>
    ensures { Gives (λ x. (x.0, x.1.now)) result (record_at bytes.now) }
{
    let (head, rest) = head_at(bytes)?;
    let (text, rest) = text_at(rest)?;
    Ok((record_from(alloc, head, text)?, rest))
}

/// This number of records, and the bytes behind them.
fn records_of(alloc: Global, count: u32, bytes: &[u8]) -> Result<(Vec<Record>, &[u8]), ReadError>
    ensures { Gives (λ x. (x.0.items, x.1.now)) result (records_at count bytes.now) }
{
    let mut records = Vec::new(alloc);
    let mut rest = bytes;
    for _ in 0..count {
        let (record, after) = read_record(alloc, rest)?;
        records.push(record)?;
        rest = after;
    }
    Ok((records, rest))
}

/// The batch at the front, and the bytes behind it.
///
/// # Errors
///
/// The first fault of the bytes, or `NoMemory`.
#[tactic(auto, unfolding(crate::specs::inner::Decoding::batch_at))]
pub fn read_batch(alloc: Global, bytes: &[u8]) -> Result<(Vec<Record>, &[u8]), ReadError>
    ensures { Gives (λ x. (x.0.items, x.1.now)) result (batch_at bytes.now) }
{
    let (count, rest) = u32_at(bytes)?;
    records_of(alloc, count, rest)
}
