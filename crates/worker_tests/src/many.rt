//! Two senders with fifty messages each, which all go to both of two destinations, on threads.

ghost use Rattle.std.specs.Prelude.{IfSome};
ghost use Rattle.engine_workers.specs.inner.Order.{AreFrom};

use crate::crowd::{Agreeing, Entrance, MESSAGES, stream_of};
use crate::runs::{Outcome, PLAN, plan_of, run_on};
use log::Log;
use std::alloc::{AllocError, Global};
use std::hash::RandomState;
use std::sync::Wait;
use std::test::Fail;
use std::thread::Threads;
use std::time;

/// The door of the channel.
fn doors_of(alloc: Global, streams: &[Vec<u8>]) -> Option<Vec<Entrance<'_>>> {
    let mut doors = Vec::new(alloc);
    doors.push(Entrance::new(streams)).ok()?;
    Some(doors)
}

/// The links of the destinations.
fn links_of(alloc: Global) -> Option<Vec<Agreeing>>
    ensures { IfSome result (λ links. AreFrom (λ link. link.destination) 0 links.items) }
{
    let mut links = Vec::new(alloc);
    links.push(Agreeing::new(alloc, 0)).ok()?;
    links.push(Agreeing::new(alloc, 1)).ok()?;
    Some(links)
}

/// The streams of both senders.
fn streams(alloc: Global) -> Result<Vec<Vec<u8>>, AllocError> {
    let mut streams = Vec::new(alloc);
    streams.push(stream_of(alloc, 0)?)?;
    streams.push(stream_of(alloc, 1)?)?;
    Ok(streams)
}

/// Runs the workers of a book for these senders. None where memory is refused.
fn run_for<H: Wait + Threads + time::Clock + Log + Sync>(
    rt: &H,
    alloc: Global,
    streams: &[Vec<u8>],
    hasher: RandomState,
) -> Option<Outcome> {
    let (doors, links) = (doors_of(alloc, streams)?, links_of(alloc)?);
    let (plan, each) = (plan_of(alloc, PLAN)?, u64::from(MESSAGES));
    Some(run_on(rt, alloc, plan, hasher, doors, links, each))
}

/// All messages of both senders are booked once and delivered to both destinations, and the audit finds nothing wrong.
#[test]
fn two_senders(rt: HostRuntime) -> Result<(), Fail> {
    let hasher = RandomState::new(&rt)?;
    let streams = streams(rt.alloc())?;
    let ended = run_for(&rt, rt.alloc(), &streams, hasher);
    assert!(rt; matches!(ended, Some(Outcome::Right)));
    Ok(())
}
