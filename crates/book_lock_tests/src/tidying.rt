//! What a service asks of a shared book: arrivals that prune a tight book, numbers of connections, and what is shown.

use crate::stage::{Came, Done, M1, M2, Task, Waiting, bring_tidy, comes_out};
use book_core::{BookRows, Front, PruneRefusal, Told};
use book_lock::{Desk, Found, Gauge, Shared, Sharing, Station, Status, Tidying};
use conn_worker::nearest;
use dest_queue::{Outcome, SlotState};
use log::Log;
use std::alloc::Global;
use std::hash::RandomState;
use std::sync::Wait;
use std::test::Fail;

/// The state of a message that waits for its first attempt.
const FRESH: SlotState = SlotState::Waiting {
    attempts: 0,
    due: 0,
};

/// What is shown of two messages that wait.
#[derive(Clone, Copy)]
struct Shown {
    admitted: [Option<u32>; 2],
    gauge: Gauge,
    /// Whether the status is that of two messages that wait, and the plan has one channel.
    status: bool,
    front: Option<Front>,
    first_live: Option<(u32, u32)>,
    /// How many messages wait at the destination, and how many behind these two.
    waiting: usize,
    past: usize,
    /// Whether the second message is found by its control id and by its number, and the third is still to come.
    found: bool,
    kept: bool,
    to_come: bool,
}

/// Whether the status is that of two messages that wait, and the plan has one channel.
fn has_status<A: Sharing, S: BookRows, H: Wait + Log>(
    rt: &H,
    shared: &Shared<A, S>,
) -> Option<bool> {
    let (status, plan) = shared.status(rt).ok()?;
    Some(is_status_of_two(&status) && plan.channels() == 1)
}

/// How many of at most this many messages wait at the destination, from one on.
fn waiting_from<A: Sharing, S: BookRows, H: Wait + Log>(
    rt: &H,
    shared: &Shared<A, S>,
    from: u32,
    most: u32,
) -> Option<usize> {
    Some(shared.waiting(rt, 0, from, most).ok()?.len())
}

/// Whether the second message is found by its control id.
fn finds_second<A: Sharing, S: BookRows, H: Wait + Log>(
    rt: &H,
    shared: &Shared<A, S>,
) -> Option<bool> {
    let found = shared.find(rt, b"M2", 0, 10).ok()?;
    Some(found.as_slice() == [1].as_slice())
}

/// Reads all that is shown.
struct Showing;

impl Task for Showing {
    type Answer = Shown;

    fn work<A: Sharing, S: BookRows, H: Wait + Log>(
        &self,
        rt: &H,
        _: Global,
        shared: &Shared<A, S>,
        _: &mut [Desk<A>],
        _: &mut [Station<A>],
    ) -> Option<Shown> {
        Some(Shown {
            admitted: [shared.admit(rt), shared.admit(rt)],
            gauge: shared.gauge(rt),
            status: has_status(rt, shared)?,
            front: shared.front(rt, 0),
            first_live: shared.first_live(rt),
            waiting: waiting_from(rt, shared, 0, 10)?,
            past: waiting_from(rt, shared, 2, u32::MAX)?,
            found: finds_second(rt, shared)?,
            kept: is_second(&shared.message(rt, 1).ok()?),
            to_come: matches!(shared.message(rt, 2), Ok(Found::ToCome)),
        })
    }

    /// Whether all that is shown is that of two messages that wait at the one destination.
    fn is_right<S: BookRows>(&self, done: &Done<Shown, S>) -> bool {
        let shown = &done.answer;
        shown.admitted == [Some(0), Some(1)]
            && done.closed.admitted() == 2
            && is_gauge_of_two(shown.gauge)
            && shown.status
            && shown.front
                == Some(Front {
                    number: 0,
                    state: FRESH,
                })
            && shown.first_live == Some((0, 0))
            && (shown.waiting, shown.past) == (2, 0)
            && shown.found
            && shown.kept
            && shown.to_come
    }
}

/// Whether a gauge is that of two messages, each with three attempts before it.
fn is_gauge_of_two(gauge: Gauge) -> bool {
    gauge
        == Gauge {
            held: 2,
            owed: 14,
            events_max: 20,
            messages: 2,
            first: 0,
            prunings: 0,
            deployments: 0,
            admitted: 2,
        }
        && gauge.remembered() == 2
}

/// Whether a status is that of two messages that wait.
fn is_status_of_two(status: &Status) -> bool {
    is_gauge_of_two(status.gauge)
        && status.counts.channel(0).accepted == 2
        && status.counts.destination(0).waiting == 2
        && status.fronts[0]
            == Some(Front {
                number: 0,
                state: FRESH,
            })
        && status.fronts[1].is_none()
        && status.first_live == Some(0)
}

/// Whether what is found is the second message.
fn is_second(found: &Found) -> bool {
    let Found::Kept(message) = found else {
        return false;
    };
    message.channel == 0
        && message.conn == Some(0)
        && message.raw.as_slice() == M2.as_bytes()
        && message.states[0] == Some(FRESH)
        && message.states[1].is_none()
}

/// Two messages wait in a book with room for 20 entries: what is shown of it is so.
#[test]
fn two_messages_are_shown(rt: HostRuntime) -> Result<(), Fail> {
    let due = Waiting {
        four: false,
        room: 20,
        messages: &[M1, M2],
    };
    let right = comes_out(&rt, rt.alloc(), RandomState::new(&rt)?, &due, &Showing)?;
    assert!(rt; right);
    Ok(())
}

/// The results of arrivals at a book that fills: of the second message, and of the first one when it was repeated,
/// and of two prunings after that; and whether the first message is forgotten then, and the second folded.
#[derive(Clone, Copy)]
struct Tidyings {
    at_first: Came,
    at_last: Came,
    by_itself: Result<u32, PruneRefusal>,
    again: Result<u32, PruneRefusal>,
    forgotten: bool,
    folded: bool,
}

/// Books messages in a small book, and prunes it.
struct Filling;

/// Whether what is found is the second message, of whose arrival no connection is known.
fn is_folded(found: &Found) -> bool {
    match found {
        Found::Kept(message) => message.conn.is_none() && message.raw.as_slice() == M2.as_bytes(),
        _ => false,
    }
}

/// Delivers the front of queue 0. None where that is refused.
fn deliver<A: Sharing, S: BookRows, H: Wait + Log>(
    rt: &H,
    shared: &Shared<A, S>,
    station: &mut Station<A>,
) -> Option<SlotState> {
    let ticket = shared.take(rt, station, 0, nearest(0)).ok()?.ticket;
    shared
        .settle(rt, station, &ticket, Outcome::Delivered, nearest(0))
        .ok()
}

impl Task for Filling {
    type Answer = Tidyings;

    fn work<A: Sharing, S: BookRows, H: Wait + Log>(
        &self,
        rt: &H,
        alloc: Global,
        shared: &Shared<A, S>,
        desks: &mut [Desk<A>],
        stations: &mut [Station<A>],
    ) -> Option<Tidyings> {
        let desk = desks.first_mut()?;
        let station = stations.first_mut()?;
        let at_first = bring_tidy(rt, alloc, shared, desk, M2)?.ok()?;
        deliver(rt, shared, station)?;
        bring_tidy(rt, alloc, shared, desk, M2)?.ok()?;
        bring_tidy(rt, alloc, shared, desk, M2)?.ok()?;
        let at_last = bring_tidy(rt, alloc, shared, desk, M1)?.ok()?;
        Some(Tidyings {
            at_first,
            at_last,
            by_itself: shared.prune_settled(rt, 0),
            again: shared.prune_settled(rt, 0),
            forgotten: matches!(shared.message(rt, 0), Ok(Found::Forgotten)),
            folded: is_folded(&shared.message(rt, 1).ok()?),
        })
    }

    /// Whether the second message found room, the last arrival pruned the book but for one message, and a pruning with none
    /// kept forgets nothing that waits.
    fn is_right<S: BookRows>(&self, done: &Done<Tidyings, S>) -> bool {
        let came = &done.answer;
        came.at_first.told == Some(Told::Accepted(1))
            && came.at_first.tidying == Tidying::NotTight
            && came.at_last.told == Some(Told::Accepted(2))
            && came.at_last.tidying == Tidying::Pruned { before: 1 }
            && came.by_itself == Ok(1)
            && came.again == Ok(1)
            && came.forgotten
            && came.folded
            && done.closed.book().prunings() == 3
    }
}

/// A book with room for 16 entries holds 6 and owes 7, once one of two messages is delivered and the other was
/// received two times more: it is tight, and the next arrival prunes it.
#[test]
fn a_tight_book_is_pruned(rt: HostRuntime) -> Result<(), Fail> {
    let due = Waiting {
        four: false,
        room: 16,
        messages: &[M1],
    };
    let right = comes_out(&rt, rt.alloc(), RandomState::new(&rt)?, &due, &Filling)?;
    assert!(rt; right);
    Ok(())
}
