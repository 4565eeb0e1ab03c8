//! Deliveries by the rule that a message is taken only once its arrival is durable.

ghost use Rattle.std.specs.Prelude.{◌≡◌, length};
ghost use Rattle.event_log.specs.History.{next_place, plan_in_force};
ghost use Rattle.event_log.specs.Counting.{counted};

use crate::delivering::{ACCEPTED, SECOND_ACCEPTED};
use crate::played::{Leaping, Looks, Played};
use crate::stage::{MESSAGES, Rows, judged, waiting};
use book_core::{Book, BookRows, Receipt};
use book_lock::{Desk, LogEntry, Opened, Shared, Sharing, Station};
use delivery_worker::{TakeRule, deliver_until};
use ghost_log::BlankLog;
use log::Log;
use std::alloc::Global;
use std::marker::Brand;
use std::sync::Wait;
use std::test::Fail;
use std::time;

/// How many messages were taken.
#[derive(Clone, Copy, PartialEq, Eq)]
struct Taken {
    /// By the rule `Durable`.
    durable: u64,
    /// After that, by the rule `Any`.
    rest: u64,
}

/// Books the second message at the last desk. None where it is not booked.
fn bring<A: Sharing, S: BookRows, H: Wait>(
    rt: &H,
    alloc: Global,
    shared: &Shared<A, S>,
    desks: &mut [Desk<A>],
) -> Option<Receipt> {
    let plan = shared.plan(rt).ok()?;
    let judged = judged(alloc, &plan, MESSAGES[1])?;
    shared.arrive(rt, desks.last_mut()?, 0, &judged).ok()
}

/// Delivers what waits, by one rule and then by the other.
fn deliver_by_both<A: Sharing, S: BookRows, H: Wait + time::Clock + Log>(
    rt: &H,
    alloc: Global,
    shared: &Shared<A, S>,
    station: &mut Station<A>,
    link: &mut Played<'_>,
) -> Taken {
    let mut clock = Leaping {
        seconds: 0,
        leap: 20,
    };
    let clock = &mut clock;
    let durable = deliver_until(
        rt,
        alloc,
        shared,
        station,
        link,
        0,
        TakeRule::Durable,
        clock,
        &Looks::new(3),
    );
    let rest = deliver_until(
        rt,
        alloc,
        shared,
        station,
        link,
        0,
        TakeRule::Any,
        clock,
        &Looks::new(1),
    );
    Taken {
        durable: durable.taken,
        rest: rest.taken,
    }
}

/// Shares a book in which the first message waits, books the second, and delivers them. None where memory was refused.
fn deliver_two<A: Sharing, S: BookRows + Drop, H: Wait + time::Clock + Log>(
    rt: &H,
    alloc: Global,
    book: Book<S>,
    log: BlankLog<LogEntry>,
    link: &mut Played<'_>,
) -> Option<Taken>
    requires opening { book ≡ A.opening }
    requires log { log.table.shared.table_id ≡ A.table }
    requires counts { counted book ≡ A.counts }
    requires first { next_place book ≡ A.first }
    requires channels { length (plan_in_force book).channels ≡ A.channels }
    requires seats { (A.desks ≡ 1) × (A.stations ≡ 1) }
{
    let opened = Shared::<A, S>::new(alloc, book, 1, 1, log);
    let Opened {
        shared,
        mut desks,
        mut stations,
    } = opened.ok()?;
    bring(rt, alloc, &shared, &mut desks)?;
    let station = stations.last_mut()?;
    Some(deliver_by_both(rt, alloc, &shared, station, link))
}

/// Delivers two messages of which one arrived before the book was shared. None where there is no book, or memory was refused.
fn deliver_both<S: BookRows + Drop, H: Wait + time::Clock + Log>(
    rt: &H,
    alloc: Global,
    book: Option<Book<S>>,
    link: &mut Played<'_>,
) -> Option<Taken> {
    let book = book?;
    let log = BlankLog::new(alloc).ok()?;
    deliver_two::<Brand, S, H>(rt, alloc, book, log, link)
}

/// Nothing was published as durable, so only what the book had when it was shared is taken by the rule `Durable`.
#[test]
fn what_is_not_durable_is_not_taken(rt: HostRuntime) -> Result<(), Fail> {
    let plays = [ACCEPTED, SECOND_ACCEPTED];
    let mut link = Played::new(rt.alloc(), &plays);
    let book = waiting::<Rows>(&rt, 1);
    let taken = deliver_both(&rt, rt.alloc(), book, &mut link);
    assert!(rt;
        taken
            == Some(Taken {
                durable: 1,
                rest: 1
            })
    );
    Ok(())
}
