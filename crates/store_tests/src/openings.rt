//! Files that go on from a book.

ghost use Rattle.std.specs.Prelude.{◌≡◌, ◌≤◌, [], OnOk};

use crate::recoveries::{
    OTHER_FORMAT, Rows, add, add_body, arrival, fails_with, in_flight, recovered, set_byte,
};
use book_core::{Book, Told};
use book_recovery::{NextFault, Recovered, flying, fold_all, next_file, settle_interrupted};
use dest_queue::SlotState;
use event_store::StoredRecord;
use hl7_head::Moment;
use std::hash::RandomState;
use std::test::*;

/// Folds the entries of a book.
fn folded(book: &mut Book<Rows>) -> Result<(), Fail>
    ensures { OnOk result (book.new.entries ≡ []) }
{
    match fold_all(book) {
        Ok(_) => Ok(()),
        Err(_) => Err("not folded".into()),
    }
}

/// The first row of a file that goes on from a book, with this bound.
fn begun_from(
    rt: &HostRuntime,
    book: &Book<Rows>,
    events_max: u32,
    last_connection: Option<u32>,
) -> Result<Result<Vec<u8>, NextFault>, Fail>
    requires folded { book.now.entries ≡ [] }
    requires some { 1 ≤ events_max }
    requires few { events_max ≤ 1000000 }
{
    let hasher = RandomState::new(rt)?;
    Ok(next_file::<Rows>(
        rt.alloc(),
        book,
        events_max,
        "1.2.4",
        last_connection,
        hasher,
    ))
}

/// The first row of a file that goes on from what was recovered, with a bound of 500 entries, once its attempt is settled.
fn first_row(rt: &HostRuntime, found: &mut Recovered<Rows>) -> Result<Vec<u8>, Fail> {
    settle_interrupted(rt.alloc(), &mut found.book, Moment::epoch())?;
    folded(&mut found.book)?;
    match begun_from(rt, &found.book, 500, found.last_connection)? {
        Ok(first) => Ok(first),
        Err(_) => Err("no first row".into()),
    }
}

/// The first row of a file that goes on from one of these rows.
fn next_row(rt: &HostRuntime, rows: &[StoredRecord]) -> Result<Vec<u8>, Fail> {
    let mut found = recovered(rt, rows)?;
    first_row(rt, &mut found)
}

/// The row of a file that goes on from one with a message that failed.
fn next_rows(rt: &HostRuntime) -> Result<Vec<StoredRecord>, Fail> {
    let before = in_flight(rt, Told::Accepted(0))?;
    let first = next_row(rt, &before)?;
    let mut rows = Vec::new(rt.alloc());
    add_body(rt.alloc(), &mut rows, first)?;
    Ok(rows)
}

/// Whether a book with three entries, a bound of 500 and one message was recovered, which came over connection 7.
fn has_gone_on(found: &Recovered<Rows>) -> bool {
    found.book.len() == 3
        && found.book.events_max() == 500
        && found.records == 0
        && found.last_connection == Some(7)
        && found.book.message_count() == 1
}

/// A file that goes on from another has its book, with another bound, and knows its last connection.
#[test]
fn file_goes_on(rt: HostRuntime) -> Result<(), Fail> {
    let rows = next_rows(&rt)?;
    let has_gone_on = has_gone_on(&recovered(&rt, &rows)?);
    assert!(rt; has_gone_on);
    Ok(())
}

/// The message of an earlier file is known in a later one: where it comes again, it is a repeat.
#[test]
fn message_is_remembered(rt: HostRuntime) -> Result<(), Fail> {
    let alloc = rt.alloc();
    let mut rows = next_rows(&rt)?;
    add(alloc, &mut rows, &arrival(alloc, Told::Repeat(0))?)?;
    let found = recovered(&rt, &rows)?;
    assert!(rt; found.book.len() == 4 && found.records == 1);
    Ok(())
}

/// Why a file isn't recovered whose header ends too late, and one from whose opening no book goes on.
const DAMAGED: &str = "the header of the file is damaged";

const NO_OPENING: &str = "the opening of the file can't be read, or no book can go on from it";

/// Whether a file with another byte in its first row isn't recovered for the reason with this text.
fn fails_at(rt: &HostRuntime, at: usize, value: u8, text: &str) -> Result<bool, Fail> {
    let mut rows = next_rows(rt)?;
    set_byte(&mut rows, at, value)?;
    fails_with(rt, &rows, text)
}

/// Another format, a text that ends too late, another bound than the opening's, and an opening of another format.
#[test]
fn other_first_rows_are_refused(rt: HostRuntime) -> Result<(), Fail> {
    for (at, value, text) in [
        (7, 3, OTHER_FORMAT),
        (15, 6, DAMAGED),
        (11, 0, NO_OPENING),
        (29, 9, NO_OPENING),
    ] {
        let is_refused = fails_at(&rt, at, value, text)?;
        assert!(rt; is_refused, "byte {at}");
    }
    Ok(())
}

/// Whether no file goes on from a book with a bound of two entries, and one does with a bound of three.
fn needs_three(rt: &HostRuntime, book: &mut Book<Rows>) -> Result<bool, Fail> {
    folded(book)?;
    let is_refused = matches!(begun_from(rt, book, 2, None)?, Err(NextFault::NotGood));
    Ok(is_refused && begun_from(rt, book, 3, None)?.is_ok())
}

/// No file goes on with a bound that is too small for a message that is still to be delivered: its attempt and a cancellation are
/// three entries, one for the take, one for the settlement, and one for the cancellation.
#[test]
fn small_bound_is_refused(rt: HostRuntime) -> Result<(), Fail> {
    let mut rows = in_flight(&rt, Told::Accepted(0))?;
    let _take = rows.pop();
    let needs_three = needs_three(&rt, &mut recovered(&rt, &rows)?.book)?;
    assert!(rt; needs_three);
    Ok(())
}

/// A message whose only attempt was in flight waits again in the next file, for that attempt: one entry more than it owed, so a bound
/// of two entries is too small.
#[test]
fn flight_waits_again(rt: HostRuntime) -> Result<(), Fail> {
    let alloc = rt.alloc();
    let mut found = recovered(&rt, &in_flight(&rt, Told::Accepted(0))?)?;
    folded(&mut found.book)?;
    let small = begun_from(&rt, &found.book, 2, None)?;
    let Ok(first) = begun_from(&rt, &found.book, 3, None)? else {
        return Err("no first row".into());
    };
    let mut rows = Vec::new(alloc);
    add_body(alloc, &mut rows, first)?;
    let next = recovered(&rt, &rows)?;
    let waits = SlotState::Waiting {
        attempts: 0,
        due: 0,
    };
    assert!(rt; flying(&found.book) == 1 && found.book.owed() == 2);
    assert!(rt; matches!(&small, Err(NextFault::NotGood)));
    assert!(rt; flying(&next.book) == 0 && next.book.owed() == 3);
    assert_eq!(rt; next.book.status(0, 0), Some(waits));
    Ok(())
}
