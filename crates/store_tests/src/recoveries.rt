//! Small files written and recovered.

use book_core::{Book, EVENTS_MAX, Outbound, Ticket, Told};
use book_recovery::{Recovered, adopt_plan, begin_file, recover, settle_interrupted};
use dest_queue::Queued;
use event_records::{Record, put_record};
use event_store::StoredRecord;
use hl7_head::Moment;
use judge_core::Text;
use plan_text::Plan;
use record_list::RecordList;
use std::alloc::{AllocError, Global};
use std::hash::RandomState;
use std::sync::Arc;
use std::test::*;

pub(crate) type Rows = RecordList<Queued<Outbound>>;

/// A plan of one channel with one destination, which is sent each message once.
const PLAN: &str = "[[destination]]\nname = \"LAB\"\naddress = \"127.0.0.1:6661\"\nattempts = 1\n\n\
    [[channel]]\nname = \"ADT\"\nlisten = \"127.0.0.1:6660\"\ntypes = [\"ADT\"]\nprocessing = [\"P\"]\n\
    versions = [\"2.5.1\"]\n[[channel.route]]\nto = \"LAB\"\n";

/// The plan with another address of the destination.
const MOVED: &str =
    "[[destination]]\nname = \"LAB\"\naddress = \"127.0.0.1:6662\"\nattempts = 1\n\n\
    [[channel]]\nname = \"ADT\"\nlisten = \"127.0.0.1:6660\"\ntypes = [\"ADT\"]\nprocessing = [\"P\"]\n\
    versions = [\"2.5.1\"]\n[[channel.route]]\nto = \"LAB\"\n";

/// A message that the channel takes.
const MESSAGE: &str =
    "MSH|^~\\&|REG|HOSP|ENG|HUB|20231114221300||ADT^A01^ADT_A01|M1|P|2.5.1\rPID|1||77^^^H\r";

/// Why a file without a header isn't recovered, and one of another format.
const HEADLESS: &str = "the file doesn't begin with the header of a message store";

pub(crate) const OTHER_FORMAT: &str =
    "the file has format 3, and this program reads formats 1 and 2";

/// The plan of a document.
fn plan(alloc: Global, document: &str) -> Result<Arc<Plan>, Fail> {
    let Ok(plan) = Plan::read(alloc, document.as_bytes()) else {
        return Err("no plan".into());
    };
    Ok(Arc::new(alloc, plan)?)
}

/// Adds a row with this body, which was written a minute after 1970 began.
pub(crate) fn add_body(
    alloc: Global,
    rows: &mut Vec<StoredRecord>,
    body: Vec<u8>,
) -> Result<(), AllocError> {
    rows.push(StoredRecord {
        body,
        at: 60_000,
        peer: Vec::new(alloc),
    })?;
    Ok(())
}

/// Adds the row of a record.
pub(crate) fn add(
    alloc: Global,
    rows: &mut Vec<StoredRecord>,
    record: &Record,
) -> Result<(), AllocError> {
    let mut body = Vec::new(alloc);
    put_record(&mut body, record)?;
    add_body(alloc, rows, body)
}

/// The row of the header of a new file.
fn begun(rt: &HostRuntime) -> Result<Vec<StoredRecord>, Fail> {
    let alloc = rt.alloc();
    let hasher = RandomState::new(rt)?;
    let begun = begin_file::<Rows>(alloc, plan(alloc, PLAN)?, EVENTS_MAX, "1.2.3", hasher)?;
    let mut rows = Vec::new(alloc);
    add_body(alloc, &mut rows, begun.header)?;
    Ok(rows)
}

/// An arrival of the message on the channel, with its answer.
pub(crate) fn arrival(alloc: Global, told: Told) -> Result<Record, AllocError> {
    Ok(Record::Arrival {
        conn: 7,
        channel: 0,
        raw: Text::new(alloc, Vec::from_slice(alloc, MESSAGE.as_bytes())?)?,
        told,
    })
}

/// A take from the only queue, 90 seconds after 1970 began.
fn taken() -> Record {
    Record::Take {
        destination: 0,
        now: Moment::of_unix(90).unwrap_or(Moment::epoch()),
    }
}

/// The rows of the header, an arrival that was answered so, and its take.
pub(crate) fn in_flight(rt: &HostRuntime, told: Told) -> Result<Vec<StoredRecord>, Fail> {
    let alloc = rt.alloc();
    let mut rows = begun(rt)?;
    add(alloc, &mut rows, &arrival(alloc, told)?)?;
    add(alloc, &mut rows, &taken())?;
    Ok(rows)
}

/// Whether a message that is in flight was recovered.
fn is_in_flight(recovered: &Recovered<Rows>) -> bool {
    recovered.book.len() == 2
        && recovered.records == 2
        && recovered.last_connection == Some(7)
        && recovered.last_second == 90
}

/// Whether an attempt is settled, and its message has failed.
fn has_failed(alloc: Global, book: &mut Book<Rows>) -> Result<bool, Fail> {
    let found = settle_interrupted(alloc, book, Moment::epoch())?;
    let first = Ticket {
        number: 0,
        destination: 0,
        attempt: 1,
    };
    Ok(found.records.len() == 1 && found.failed.as_slice() == [first].as_slice())
}

/// The book of these rows.
pub(crate) fn recovered(rt: &HostRuntime, rows: &[StoredRecord]) -> Result<Recovered<Rows>, Fail> {
    match recover::<Rows>(rt.alloc(), rows, RandomState::new(rt)?) {
        Ok(recovered) => Ok(recovered),
        Err(_) => Err("not recovered".into()),
    }
}

/// What was written is recovered. Of an attempt that was in flight the record is returned, and that it was the last.
#[test]
fn file_is_recovered(rt: HostRuntime) -> Result<(), Fail> {
    let rows = in_flight(&rt, Told::Accepted(0))?;
    let mut recovered = recovered(&rt, &rows)?;
    let right = is_in_flight(&recovered);
    let failed = has_failed(rt.alloc(), &mut recovered.book)?;
    assert!(rt; right && failed);
    Ok(())
}

/// Why rows aren't recovered, as a text.
fn failure(rt: &HostRuntime, rows: &[StoredRecord]) -> Result<String, Fail> {
    let alloc = rt.alloc();
    match recover::<Rows>(alloc, rows, RandomState::new(rt)?) {
        Ok(_) => Err("recovered".into()),
        Err(error) => Ok(format!(in alloc; "{error}")?),
    }
}

/// Whether rows aren't recovered for the reason with this text.
pub(crate) fn fails_with(
    rt: &HostRuntime,
    rows: &[StoredRecord],
    text: &str,
) -> Result<bool, Fail> {
    Ok(failure(rt, rows)?.as_str() == text)
}

/// The error names the record, and the version that began the file.
#[test]
fn stop_names_its_record(rt: HostRuntime) -> Result<(), Fail> {
    let rows = in_flight(&rt, Told::Filtered)?;
    let is_named = fails_with(
        &rt,
        &rows,
        "record 2: the book answers a message otherwise than its sender was answered; version 1.2.3 began the file",
    )?;
    assert!(rt; is_named);
    Ok(())
}

/// Adds a byte behind the body of the row with this index.
fn add_byte(rows: &mut Vec<StoredRecord>, at: usize) -> Result<(), Fail> {
    match rows.get_mut(at) {
        Some(row) => Ok(row.body.push(0)?),
        None => Err("no row".into()),
    }
}

/// Sets a byte of the first row's body.
pub(crate) fn set_byte(rows: &mut Vec<StoredRecord>, at: usize, value: u8) -> Result<(), Fail> {
    match rows.get_mut(0) {
        Some(row) => match row.body.get_mut(at) {
            Some(byte) => {
                *byte = value;
                Ok(())
            }
            None => Err("no byte".into()),
        },
        None => Err("no row".into()),
    }
}

/// All rows but the first.
fn behind_first(rows: &[StoredRecord]) -> &[StoredRecord] {
    match rows {
        [_, rest @ ..] => rest,
        [] => rows,
    }
}

/// A header of another format, bytes behind a record, a record in the place of the header, and no header at all.
#[test]
fn other_bytes_are_refused(rt: HostRuntime) -> Result<(), Fail> {
    let mut rows = in_flight(&rt, Told::Accepted(0))?;
    add_byte(&mut rows, 2)?;
    let trailing = fails_with(
        &rt,
        &rows,
        "record 3: the record is damaged: bytes follow it; version 1.2.3 began the file",
    )?;
    let headless = fails_with(&rt, behind_first(&rows), HEADLESS)?;
    set_byte(&mut rows, 7, 3)?;
    let other = fails_with(&rt, &rows, OTHER_FORMAT)?;
    let empty = fails_with(&rt, &[], HEADLESS)?;
    assert!(rt; trailing && headless && other && empty);
    Ok(())
}

/// Adopts a plan, and adds the row of its record if there is one. Returns whether there is.
fn is_adopted(
    alloc: Global,
    book: &mut Book<Rows>,
    rows: &mut Vec<StoredRecord>,
    document: &str,
) -> Result<bool, Fail> {
    match adopt_plan(alloc, book, plan(alloc, document)?) {
        Ok(Some(record)) => {
            add(alloc, rows, &record)?;
            Ok(true)
        }
        Ok(None) => Ok(false),
        Err(_) => Err("refused".into()),
    }
}

/// Adopts the plan in force, and then one that says otherwise. Returns whether the second alone has a record.
fn adopts_the_other(rt: &HostRuntime, rows: &mut Vec<StoredRecord>) -> Result<bool, Fail> {
    let alloc = rt.alloc();
    let mut book = recovered(rt, rows)?.book;
    let same = is_adopted(alloc, &mut book, rows, PLAN)?;
    let moved = is_adopted(alloc, &mut book, rows, MOVED)?;
    Ok(!same && moved)
}

/// Whether three records of these rows are recovered, with this plan in force.
fn has_plan(rt: &HostRuntime, rows: &[StoredRecord], document: &str) -> Result<bool, Fail> {
    let plan = plan(rt.alloc(), document)?;
    let recovered = recovered(rt, rows)?;
    Ok(recovered.records == 3 && recovered.book.plan().same(&plan))
}

/// A plan that says otherwise is deployed, and its record is returned: a file with it is recovered with that plan.
#[test]
fn plan_is_adopted(rt: HostRuntime) -> Result<(), Fail> {
    let mut rows = in_flight(&rt, Told::Accepted(0))?;
    let adopted = adopts_the_other(&rt, &mut rows)?;
    let right = has_plan(&rt, &rows, MOVED)?;
    assert!(rt; adopted && right);
    Ok(())
}
