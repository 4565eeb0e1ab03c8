//! What is handed in at a close, and the audit of receipts after it.

ghost use Rattle.std.specs.Prelude.{◌≡◌, ◌+◌, length};
ghost use Rattle.event_log.specs.History.{next_place, plan_in_force};
ghost use Rattle.event_log.specs.Counting.{counted};

use crate::stage::{EMPTY, M1, M2, Rows, bring, filled};
use book_core::{Book, BookRows, Receipt, Told};
use book_lock::{
    AuditFault, Closed, Desk, LogEntry, NotClosed, Opened, Shared, Sharing, Station, audit, rising,
};
use conn_worker::nearest;
use ghost_log::BlankLog;
use judge_core::Text;
use log::Log;
use std::alloc::Global;
use std::hash::RandomState;
use std::marker::Brand;
use std::sync::Wait;
use std::test::Fail;

/// Which shares are handed in at the first close.
struct Given {
    /// The desk at which two messages were booked.
    busy: bool,
    /// The desk at which none was.
    idle: bool,
    /// The station at which one was taken.
    station: bool,
    /// How many desks and stations come back, where the close is refused.
    back: Option<(usize, usize)>,
}

const GIVEN: [Given; 4] = [
    // all
    Given {
        busy: true,
        idle: true,
        station: true,
        back: None,
    },
    // without the desk that booked
    Given {
        busy: false,
        idle: true,
        station: true,
        back: Some((1, 1)),
    },
    // without the station that took
    Given {
        busy: true,
        idle: true,
        station: false,
        back: Some((2, 0)),
    },
    // without the desk that booked nothing
    Given {
        busy: true,
        idle: false,
        station: true,
        back: None,
    },
];

/// What a receipt says: its entry, its connection, its bytes and the message's number.
#[derive(Clone, Copy)]
struct Slip {
    entry: usize,
    conn: u32,
    text: &'static str,
    number: u32,
}

/// The receipts of the two arrivals.
const FIRST: Slip = Slip {
    entry: 0,
    conn: 5,
    text: M1,
    number: 0,
};

const SECOND: Slip = Slip {
    entry: 2,
    conn: 5,
    text: M2,
    number: 1,
};

/// A receipt of the take.
const OF_A_TAKE: Slip = Slip {
    entry: 1,
    conn: 5,
    text: M1,
    number: 0,
};

/// The first with another connection, and with other bytes.
const BY_ANOTHER: Slip = Slip {
    entry: 0,
    conn: 6,
    text: M1,
    number: 0,
};

const OF_OTHER_BYTES: Slip = Slip {
    entry: 0,
    conn: 5,
    text: M2,
    number: 0,
};

/// Receipts, what the audit says of them, and whether their places rise.
struct Audit {
    slips: &'static [Slip],
    answer: Result<(), AuditFault>,
    rises: bool,
}

const AUDITS: [Audit; 10] = [
    Audit {
        slips: &[FIRST, SECOND],
        answer: Ok(()),
        rises: true,
    },
    Audit {
        slips: &[SECOND, FIRST],
        answer: Ok(()),
        rises: false,
    },
    Audit {
        slips: &[FIRST],
        answer: Err(AuditFault::Missing(2)),
        rises: true,
    },
    Audit {
        slips: &[],
        answer: Err(AuditFault::Missing(0)),
        rises: true,
    },
    Audit {
        slips: &[FIRST, SECOND, FIRST],
        answer: Err(AuditFault::Doubled(0)),
        rises: false,
    },
    Audit {
        slips: &[FIRST, OF_A_TAKE, SECOND],
        answer: Err(AuditFault::Differs(1)),
        rises: true,
    },
    Audit {
        slips: &[BY_ANOTHER, SECOND],
        answer: Err(AuditFault::Differs(0)),
        rises: true,
    },
    Audit {
        slips: &[OF_OTHER_BYTES, SECOND],
        answer: Err(AuditFault::Differs(0)),
        rises: true,
    },
    Audit {
        slips: &[SECOND, SECOND],
        answer: Err(AuditFault::Missing(0)),
        rises: false,
    },
    Audit {
        slips: &[FIRST, FIRST],
        answer: Err(AuditFault::Doubled(0)),
        rises: false,
    },
];

/// A day's end: how many desks and stations were returned where the first close was refused, and the book.
#[derive(Drop)]
struct Day<S: BookRows> {
    back: Option<(usize, usize)>,
    closed: Closed<S>,
}

/// Keeps a share back from those that are handed in, unless it is given.
fn keep_back<X: Drop>(
    handed: &mut Vec<X>,
    place: usize,
    given: bool,
    kept: &mut Vec<X>,
) -> Result<(), Fail> {
    if !given && place < handed.len() {
        kept.push(handed.remove(place))?;
    }
    Ok(())
}

/// The desks and stations that are handed in, or those that are kept.
type Shares<A> = (Vec<Desk<A>>, Vec<Station<A>>);

/// Puts the kept shares to those that are handed in.
fn add<A: Sharing>(handed: &mut Shares<A>, kept: &mut Shares<A>) -> Result<(), Fail> {
    handed.0.append(&mut kept.0)?;
    handed.1.append(&mut kept.1)?;
    Ok(())
}

/// Closes a book at last, with the shares that were kept.
fn close_at_last<A: Sharing, S: BookRows + Drop>(
    missing: NotClosed<A, S>,
    kept: &mut Shares<A>,
) -> Result<Day<S>, Fail> {
    let NotClosed::SharesMissing {
        shared,
        desks,
        stations,
    } = missing;
    let back = Some((desks.len(), stations.len()));
    let mut handed = (desks, stations);
    add(&mut handed, kept)?;
    match shared.close(handed.0, handed.1) {
        Ok(closed) => Ok(Day { back, closed }),
        Err(_) => Err("shares".into()),
    }
}

/// Closes a book with the shares that are handed in, and with the others too where that was refused.
fn close_twice<A: Sharing, S: BookRows + Drop>(
    shared: Shared<A, S>,
    handed: Shares<A>,
    kept: &mut Shares<A>,
) -> Result<Day<S>, Fail> {
    match shared.close(handed.0, handed.1) {
        Ok(closed) => Ok(Day { back: None, closed }),
        Err(missing) => close_at_last(missing, kept),
    }
}

/// Keeps back the shares that are not given.
fn keep<A: Sharing>(
    given: &Given,
    handed: &mut Shares<A>,
    kept: &mut Shares<A>,
) -> Result<(), Fail> {
    keep_back(&mut handed.0, 1, given.idle, &mut kept.0)?;
    keep_back(&mut handed.0, 0, given.busy, &mut kept.0)?;
    keep_back(&mut handed.1, 0, given.station, &mut kept.1)
}

/// Whether a message is booked by connection 5.
fn books<A: Sharing, S: BookRows, H: Wait + Log>(
    rt: &H,
    alloc: Global,
    shared: &Shared<A, S>,
    desk: &mut Desk<A>,
    text: &str,
) -> bool {
    bring(rt, alloc, shared, desk, 5, text).is_some()
}

/// Books a message at the first desk, takes it at the first station, and books another. Whether all of that was done.
fn work<A: Sharing, S: BookRows, H: Wait + Log>(
    rt: &H,
    alloc: Global,
    shared: &Shared<A, S>,
    shares: &mut Shares<A>,
) -> bool {
    let (Some(desk), Some(station)) = (shares.0.first_mut(), shares.1.first_mut()) else {
        return false;
    };
    books(rt, alloc, shared, desk, M1)
        && shared.take(rt, station, 0, nearest(0)).is_ok()
        && books(rt, alloc, shared, desk, M2)
}

/// Works at one of two desks and at a station, and keeps back the shares that are not given.
fn work_and_keep<A: Sharing, S: BookRows, H: Wait + Log>(
    rt: &H,
    alloc: Global,
    shared: &Shared<A, S>,
    given: &Given,
    handed: &mut Shares<A>,
    kept: &mut Shares<A>,
) -> Result<(), Fail> {
    if !work(rt, alloc, shared, handed) {
        return Err("a call".into());
    }
    keep(given, handed, kept)
}

/// Works at the first desk and the station of a book that was just shared, and closes it, a second time with all shares where the
/// first close was refused.
fn end_with<A: Sharing, S: BookRows + Drop, H: Wait + Log>(
    rt: &H,
    alloc: Global,
    opened: Opened<A, S>,
    given: &Given,
) -> Result<Day<S>, Fail> {
    let Opened {
        shared,
        desks,
        stations,
    } = opened;
    let mut handed = (desks, stations);
    let mut kept = (Vec::new(alloc), Vec::new(alloc));
    work_and_keep(rt, alloc, &shared, given, &mut handed, &mut kept)?;
    close_twice(shared, handed, &mut kept)
}

/// Shares a book between two desks and a station, works at one desk and the station, and closes it.
fn end_day<A: Sharing, S: BookRows + Drop, H: Wait + Log>(
    rt: &H,
    alloc: Global,
    book: Book<S>,
    log: BlankLog<LogEntry>,
    given: &Given,
) -> Result<Day<S>, Fail>
    requires opening { book ≡ A.opening }
    requires log { log.table.shared.table_id ≡ A.table }
    requires counts { counted book ≡ A.counts }
    requires first { next_place book ≡ A.first }
    requires channels { length (plan_in_force book).channels ≡ A.channels }
    requires seats { (A.desks ≡ 2) × (A.stations ≡ 1) }
{
    match Shared::<A, S>::new(alloc, book, 2, 1, log) {
        Ok(opened) => end_with(rt, alloc, opened, given),
        Err(_) => Err("memory".into()),
    }
}

/// The receipt of a slip.
fn receipt(alloc: Global, slip: Slip) -> Result<Receipt, Fail> {
    let bytes = Vec::from_slice(alloc, slip.text.as_bytes())?;
    Ok(Receipt {
        entry: slip.entry,
        conn: slip.conn,
        channel: 0,
        raw: Text::new(alloc, bytes)?,
        told: Told::Accepted(slip.number),
    })
}

/// The receipts of these slips.
fn receipts(alloc: Global, slips: &[Slip]) -> Result<Vec<Receipt>, Fail> {
    let mut receipts = Vec::new(alloc);
    for slip in slips {
        receipts.push(receipt(alloc, *slip)?)?;
    }
    Ok(receipts)
}

/// Whether an audit comes out as it is to.
fn is_met<S: BookRows>(alloc: Global, closed: &Closed<S>, case: &Audit) -> Result<bool, Fail> {
    let receipts = receipts(alloc, case.slips)?;
    let answer = audit(closed, receipts.as_slice());
    Ok(answer == case.answer && rising(receipts.as_slice()) == case.rises)
}

/// The first audit that comes out otherwise than it is to.
fn unmet<S: BookRows>(alloc: Global, closed: &Closed<S>) -> Result<Option<usize>, Fail> {
    for (place, case) in AUDITS.iter().enumerate() {
        if !is_met(alloc, closed, case)? {
            return Ok(Some(place));
        }
    }
    Ok(None)
}

/// A day at a book, of which these shares are handed in.
fn day_at<S: BookRows + Drop, H: Wait + Log>(
    rt: &H,
    alloc: Global,
    book: Book<S>,
    given: &Given,
) -> Result<Day<S>, Fail> {
    let log = BlankLog::new(alloc)?;
    end_day::<Brand, S, H>(rt, alloc, book, log, given)
}

/// Whether as many shares were returned as are due, and each audit has the expected result.
fn is_right<S: BookRows>(alloc: Global, given: &Given, day: &Day<S>) -> Result<bool, Fail> {
    Ok(day.back == given.back && unmet(alloc, &day.closed)?.is_none())
}

/// Whether a day at a book, of which these shares are handed in, comes out as it is to.
fn comes_out<S: BookRows + Drop, H: Wait + Log>(
    rt: &H,
    alloc: Global,
    book: Book<S>,
    given: &Given,
) -> Result<bool, Fail> {
    let day = day_at(rt, alloc, book, given)?;
    is_right(alloc, given, &day)
}

/// Whether a day at an empty book comes out as it is to.
fn day_comes_out<H: Wait + Log>(
    rt: &H,
    alloc: Global,
    hasher: RandomState,
    given: &Given,
) -> Result<bool, Fail> {
    let book = filled::<Rows>(alloc, hasher, &EMPTY)?;
    comes_out(rt, alloc, book, given)
}

/// A close is refused where a share is missing at which something was made. Where it is refused, all comes back, and the
/// next close with all shares is done. Each audit comes out as it is to.
#[test]
fn cases(rt: HostRuntime) -> Result<(), Fail> {
    let hasher = RandomState::new(&rt)?;
    for (place, given) in GIVEN.iter().enumerate() {
        let right = day_comes_out(&rt, rt.alloc(), hasher, given)?;
        assert!(rt; right, "case {place}");
    }
    Ok(())
}
