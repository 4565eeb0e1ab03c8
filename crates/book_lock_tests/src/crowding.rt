//! Arrivals that are held back since their destination is crowded, and a book that is pruned where it has no room.

use crate::stage::{Came, Done, M1, M2, Task, Waiting, bring_tidy, comes_out};
use book_core::{BookRows, Told};
use book_lock::{Crowded, Desk, Shared, Sharing, Station, Tidying};
use conn_worker::nearest;
use dest_queue::Outcome;
use log::Log;
use std::alloc::Global;
use std::hash::RandomState;
use std::sync::Wait;
use std::test::Fail;

/// What an arrival was answered, if it was booked.
fn told(arrived: &Result<Came, Crowded>) -> Option<Told> {
    match arrived {
        Ok(came) => came.told,
        Err(_) => None,
    }
}

/// Whether an arrival was held back for the first destination, and nothing was done about the book.
fn is_held_back(arrived: &Result<Came, Crowded>) -> bool {
    matches!(
        arrived,
        Err(Crowded {
            destination: 0,
            tidying: Tidying::NotTight,
        })
    )
}

/// Delivers the front of the first queue. None where that is refused.
fn deliver<A: Sharing, S: BookRows, H: Wait + Log>(
    rt: &H,
    shared: &Shared<A, S>,
    station: &mut Station<A>,
) -> Option<()> {
    let ticket = shared.take(rt, station, 0, nearest(0)).ok()?.ticket;
    shared
        .settle(rt, station, &ticket, Outcome::Delivered, nearest(0))
        .ok()?;
    Some(())
}

/// A second message at a destination that then owes more than half of the book, a repeat, and the repeat once more after a
/// delivery.
struct Crowding;

impl Task for Crowding {
    type Answer = [Result<Came, Crowded>; 3];

    fn work<A: Sharing, S: BookRows, H: Wait + Log>(
        &self,
        rt: &H,
        alloc: Global,
        shared: &Shared<A, S>,
        desks: &mut [Desk<A>],
        stations: &mut [Station<A>],
    ) -> Option<[Result<Came, Crowded>; 3]> {
        let desk = desks.first_mut()?;
        let second = bring_tidy(rt, alloc, shared, desk, M2)?;
        let early = bring_tidy(rt, alloc, shared, desk, M1)?;
        deliver(rt, shared, stations.first_mut()?)?;
        let late = bring_tidy(rt, alloc, shared, desk, M1)?;
        Some([second, early, late])
    }

    fn is_right<S: BookRows>(&self, done: &Done<[Result<Came, Crowded>; 3], S>) -> bool {
        let [second, early, late] = &done.answer;
        told(second) == Some(Told::Accepted(1))
            && is_held_back(early)
            && told(late) == Some(Told::Repeat(0))
            && done.closed.book().len() == 5
    }
}

/// A message waits in a book with room for twenty entries.
const ONE: Waiting = Waiting {
    four: false,
    room: 20,
    messages: &[M1],
};

/// Two messages with three attempts each owe 14 entries of 20: what comes then is held back, until one is delivered.
#[test]
fn a_crowded_destination_waits(rt: HostRuntime) -> Result<(), Fail> {
    let right = comes_out(&rt, rt.alloc(), RandomState::new(&rt)?, &ONE, &Crowding)?;
    assert!(rt; right);
    Ok(())
}

/// A message that is delivered and repeated ten times, and another one then.
struct Lacking;

impl Task for Lacking {
    type Answer = Came;

    fn work<A: Sharing, S: BookRows, H: Wait + Log>(
        &self,
        rt: &H,
        alloc: Global,
        shared: &Shared<A, S>,
        desks: &mut [Desk<A>],
        stations: &mut [Station<A>],
    ) -> Option<Came> {
        let desk = desks.first_mut()?;
        deliver(rt, shared, stations.first_mut()?)?;
        for _ in 0..10 {
            bring_tidy(rt, alloc, shared, desk, M1)?.ok()?;
        }
        bring_tidy(rt, alloc, shared, desk, M2)?.ok()
    }

    fn is_right<S: BookRows>(&self, done: &Done<Came, S>) -> bool {
        done.answer.told == Some(Told::Accepted(1))
            && done.answer.tidying == Tidying::Pruned { before: 0 }
            && done.closed.book().prunings() == 1
    }
}

/// A book with room for 20 entries holds 13, so it is not tight. A message that takes eight finds no room, and is booked once
/// the entries are folded.
#[test]
fn a_lack_of_room_prunes(rt: HostRuntime) -> Result<(), Fail> {
    let right = comes_out(&rt, rt.alloc(), RandomState::new(&rt)?, &ONE, &Lacking)?;
    assert!(rt; right);
    Ok(())
}
