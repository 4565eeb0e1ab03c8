//! Workers that are held up until others have got on.

ghost use Rattle.std.specs.Prelude.{IfSome, if◌then◌else◌};
ghost use Rattle.engine_workers.specs.inner.Order.{AreFrom};

use crate::runs::{Outcome, PLAN, plan_of, run_on};
use crate::stage::{Gate, Partner, Stage};
use log::Log;
use std::alloc::Global;
use std::hash::RandomState;
use std::sync::Wait;
use std::test::Fail;
use std::thread::Threads;
use std::time;

/// The door of the channel.
fn doors_of(alloc: Global, stage: &Stage) -> Option<Vec<Gate<'_>>> {
    let mut doors = Vec::new(alloc);
    doors.push(Gate::new(stage)).ok()?;
    Some(doors)
}

/// The links of the destinations.
fn links_of(alloc: Global, stage: &Stage) -> Option<Vec<Partner<'_>>>
    ensures { IfSome result (λ links. AreFrom (λ link. if link.is_second then 1 else 0) 0 links.items) }
{
    let mut links = Vec::new(alloc);
    links.push(Partner::new(stage, false)).ok()?;
    links.push(Partner::new(stage, true)).ok()?;
    Some(links)
}

/// Runs the workers of a book on a stage, where two senders bring a message each. None where memory is refused.
fn run_at<H: Wait + Threads + time::Clock + Log + Sync>(
    rt: &H,
    alloc: Global,
    stage: &Stage,
    hasher: RandomState,
) -> Option<Outcome> {
    let (doors, links) = (doors_of(alloc, stage)?, links_of(alloc, stage)?);
    let plan = plan_of(alloc, PLAN)?;
    Some(run_on(rt, alloc, plan, hasher, doors, links, 1))
}

/// Connection 1 comes once connection 0 is read, and connection 0 brings its message once connection 1 has its reply.
/// Connection 1 ends once its message is answered by destination 1. The first send to each destination ends once that to the
/// other was begun, and the first receive likewise. All get on, and both messages are delivered to both destinations. The
/// desks made an arrival each, and the statistics shown before the close are those of the closed book. The door is closed.
#[test]
fn workers_wait_for_one_another(rt: HostRuntime) -> Result<(), Fail> {
    let (stage, hasher) = (Stage::new(1_000_000, false), RandomState::new(&rt)?);
    let ended = run_at(&rt, rt.alloc(), &stage, hasher);
    assert!(rt; !stage.is_stuck(), "a worker waited in vain");
    assert!(rt; matches!(ended, Some(Outcome::Right)));
    assert!(rt; stage.is_closed());
    Ok(())
}

/// Where memory is refused to a door, the run ends as it does where memory is refused to the workers, and not with a door
/// that failed.
#[test]
fn a_door_without_memory_is_no_failed_door(rt: HostRuntime) -> Result<(), Fail> {
    let (stage, hasher) = (Stage::new(1_000_000, true), RandomState::new(&rt)?);
    let ended = run_at(&rt, rt.alloc(), &stage, hasher);
    assert!(rt; matches!(ended, Some(Outcome::NotStarted)));
    assert!(rt; stage.is_closed());
    Ok(())
}
