//! Records are encoded.

ghost use Rattle.std.specs.Prelude.{◌≡◌, ◌<◌, ◌^◌, ◌++◌, IfOk, OnOk};
ghost use Rattle.std.specs.List.{AllByRecursion};
ghost use Rattle.event_records.specs.inner.Fields.{Fits, IsHead, head_of, outcome_kind, text_of, told_kind, told_number};
ghost use Rattle.event_records.specs.inner.Encoding.{batch_encoding, encoding, head_bytes};

use crate::head::Head;
use crate::record::Record;
use dest_queue::Outcome;
use event_log::{Ticket, Told};
use hl7_head::Moment;
use judge_core::offset_32;
use std::alloc::{AllocError, Global};

/// An answer as a kind and a number.
pub fn told_parts(told: Told) -> (u8, u32)
    ensures { result ≡ (told_kind told, told_number told) }
{
    match told {
        Told::Accepted(number) => (0, number),
        Told::Filtered => (1, 0),
        Told::Refused(cause) => (2, cause.code()),
        Told::Repeat(place) => (3, place),
    }
}

/// An outcome as a number.
fn outcome_kind(outcome: Outcome) -> u8
    ensures { result ≡ outcome_kind outcome }
{
    match outcome {
        Outcome::Delivered => 0,
        Outcome::Again => 1,
        Outcome::Rejected => 2,
    }
}

/// The fields of a settlement.
fn settlement_head(ticket: Ticket, outcome: Outcome, now: Moment) -> Head
    ensures head { result ≡ head_of (Record.Settle ticket outcome now) }
    ensures fits { IsHead result }
{
    Head {
        kind: 2,
        part: outcome_kind(outcome),
        first: ticket.number,
        second: ticket.destination,
        third: ticket.attempt,
        moment: now.secs(),
    }
}

/// The fields of a record.
pub(crate) fn head_of(item: &Record) -> Head
    ensures head { result ≡ head_of item.now }
    ensures fits { IsHead result }
{
    match item {
        Record::Arrival {
            conn,
            channel,
            told,
            ..
        } => {
            let (part, third) = told_parts(*told);
            Head {
                kind: 0,
                part,
                first: *conn,
                second: *channel,
                third,
                moment: 0,
            }
        }
        Record::Take { destination, now } => Head {
            kind: 1,
            part: 0,
            first: *destination,
            second: 0,
            third: 0,
            moment: now.secs(),
        },
        Record::Settle {
            ticket,
            outcome,
            now,
        } => settlement_head(*ticket, *outcome, *now),
        Record::Cancel { number, among } => Head {
            kind: 3,
            part: 0,
            first: *number,
            second: *among,
            third: 0,
            moment: 0,
        },
        Record::Deploy { .. } => Head {
            kind: 4,
            part: 0,
            first: 0,
            second: 0,
            third: 0,
            moment: 0,
        },
        Record::Prune { before } => Head {
            kind: 5,
            part: 0,
            first: *before,
            second: 0,
            third: 0,
            moment: 0,
        },
    }
}

/// The text of a record.
pub(crate) fn text_of(item: &Record) -> &[u8]
    ensures { result.now ≡ text_of item.now }
{
    match item {
        Record::Arrival { raw, .. } => raw.as_slice(),
        Record::Deploy { document } => document.as_slice(),
        _ => &[],
    }
}

/// Appends a head.
fn put_head(out: &mut Vec<u8>, head: Head) -> Result<(), AllocError>
    ensures { OnOk result (out.new.items ≡ out.old.items ++ head_bytes head) }
{
    out.push(head.kind)?;
    out.push(head.part)?;
    out.extend_from_slice(&head.first.to_be_bytes())?;
    out.extend_from_slice(&head.second.to_be_bytes())?;
    out.extend_from_slice(&head.third.to_be_bytes())?;
    out.extend_from_slice(&head.moment.to_be_bytes())?;
    Ok(())
}

/// Appends a record.
///
/// # Errors
///
/// Where memory is refused, or the text has 4 GiB or more, which is refused as memory is. A part of the record may have been
/// appended then.
pub fn put_record(out: &mut Vec<u8>, item: &Record) -> Result<(), AllocError>
    ensures bytes { OnOk result (out.new.items ≡ out.old.items ++ encoding item.now) }
    ensures fits { OnOk result (Fits item.now) }
{
    let head = head_of(item);
    let text = text_of(item);
    let len = offset_32(text.len())?;
    put_head(out, head)?;
    out.extend_from_slice(&len.to_be_bytes())?;
    out.extend_from_slice(text)?;
    Ok(())
}

/// The encoding of a batch of records.
///
/// # Errors
///
/// Where memory is refused, the text of a record has 4 GiB or more, or there are 2^32 records or more.
pub fn write_batch(alloc: Global, records: &[Record]) -> Result<Vec<u8>, AllocError>
    ensures bytes { IfOk result (λ v. v.items ≡ batch_encoding records.now) }
    ensures fits { OnOk result (AllByRecursion Fits records.now) }
{
    let mut out = Vec::new(alloc);
    let count = offset_32(records.len())?;
    out.extend_from_slice(&count.to_be_bytes())?;
    for item in records {
        put_record(&mut out, item)?;
    }
    Ok(out)
}
