//! Messages that are judged by the plan that their desk was given, with and without a deployment in between.

ghost use Rattle.std.specs.Prelude.{IfSome, IsTrue};
ghost use Rattle.judge_core.specs.Judging.{is_bookable};
ghost use Rattle.book_lock.specs.inner.Planning.{WasInForce};

use crate::stage::{Done, EMPTY, M1, M2, SLOWER, Task, comes_out, judged, plan_of};
use book_core::{BookRows, NotBooked, Receipt, Told};
use book_lock::{Desk, Shared, Sharing, Station};
use judge_core::Judged;
use log::Log;
use plan_text::Plan;
use std::alloc::Global;
use std::hash::RandomState;
use std::sync::{Arc, Wait};
use std::test::Fail;

/// A message with the control id M3.
const M3: &str =
    "MSH|^~\\&|REG|HOSP|ENG|HUB|20231114221300||ADT^A01^ADT_A01|M3|P|2.5.1|||AL|NE\rPID|1||77^^^H\r";

/// A message that is judged by the plan that the desk is given. None where it is not bookable, or memory is refused.
fn judged_at<A: Sharing, S: BookRows, H: Wait + Log>(
    rt: &H,
    alloc: Global,
    shared: &Shared<A, S>,
    desk: &mut Desk<A>,
    text: &str,
) -> Option<Judged>
    ensures bookable { IfSome result (λ judged. IsTrue (is_bookable judged.raw)) }
    ensures by_plan { IfSome result (λ judged. WasInForce A.opening
        desk.new.seat.seen desk.new.deployed judged.plan) }
{
    let Ok(plan) = shared.plan_at(rt, desk) else {
        return None;
    };
    judged(alloc, &plan, text)
}

/// The answer to an arrival.
fn told(arrived: Result<Receipt, NotBooked>) -> Result<Told, NotBooked> {
    match arrived {
        Ok(receipt) => Ok(receipt.told),
        Err(refusal) => Err(refusal),
    }
}

/// Puts a plan in force, where there is one. None where it is refused, or memory is.
fn deploy<A: Sharing, S: BookRows, H: Wait + Log>(
    rt: &H,
    shared: &Shared<A, S>,
    plan: Option<&Arc<Plan>>,
) -> Option<()> {
    match plan {
        Some(plan) => shared.deploy(rt, Arc::try_clone(plan).ok()?).ok(),
        None => Some(()),
    }
}

/// Books a message by connection 1, and tidies the book first, where that is said. None where it is held back.
fn arrive<A: Sharing, S: BookRows, H: Wait + Log>(
    rt: &H,
    shared: &Shared<A, S>,
    desk: &mut Desk<A>,
    judged: &Judged,
    is_tidied: bool,
) -> Option<Result<Told, NotBooked>>
    requires bookable { IsTrue (is_bookable judged.now.raw) }
    requires by_plan { WasInForce A.opening desk.old.seat.seen desk.old.deployed judged.now.plan }
{
    if is_tidied {
        let tidied = shared.arrive_tidy_judged(rt, desk, 1, judged, 0).ok()?;
        return Some(told(tidied.receipt));
    }
    Some(told(shared.arrive_judged(rt, desk, 1, judged)))
}

/// Books a message behind the deployment of a plan, where there is one, and tidies the book before it, where that is said. None
/// where the plan is refused, memory is, or the message is held back.
fn arrive_behind<A: Sharing, S: BookRows, H: Wait + Log>(
    rt: &H,
    shared: &Shared<A, S>,
    desk: &mut Desk<A>,
    judged: &Judged,
    deployed: Option<&Arc<Plan>>,
    is_tidied: bool,
) -> Option<Result<Told, NotBooked>>
    requires bookable { IsTrue (is_bookable judged.now.raw) }
    requires by_plan { WasInForce A.opening desk.old.seat.seen desk.old.deployed judged.now.plan }
{
    deploy(rt, shared, deployed)?;
    arrive(rt, shared, desk, judged, is_tidied)
}

/// Books a message that is judged by the plan that the desk is given, behind the deployment of a plan, where there is one.
/// It is tidied first, where that is said. None where it is not bookable, the plan is refused, or memory is.
fn booked<A: Sharing, S: BookRows, H: Wait + Log>(
    rt: &H,
    alloc: Global,
    shared: &Shared<A, S>,
    desk: &mut Desk<A>,
    text: &str,
    deployed: Option<&Arc<Plan>>,
    is_tidied: bool,
) -> Option<Result<Told, NotBooked>> {
    let judged = judged_at(rt, alloc, shared, desk, text)?;
    arrive_behind(rt, shared, desk, &judged, deployed, is_tidied)
}

/// Books messages that were judged by the plan in force, by one that was replaced, and by one that an equal one replaced.
#[derive(Drop)]
struct Judging {
    slower: Arc<Plan>,
    is_tidied: bool,
}

impl Task for Judging {
    type Answer = [bool; 3];

    fn work<A: Sharing, S: BookRows, H: Wait + Log>(
        &self,
        rt: &H,
        alloc: Global,
        shared: &Shared<A, S>,
        desks: &mut [Desk<A>],
        _: &mut [Station<A>],
    ) -> Option<[bool; 3]> {
        let desk = desks.first_mut()?;
        let (slower, is_tidied) = (Some(&self.slower), self.is_tidied);
        let kept = booked(rt, alloc, shared, desk, M1, None, is_tidied)?;
        let replaced = booked(rt, alloc, shared, desk, M2, slower, is_tidied)?;
        let equal = booked(rt, alloc, shared, desk, M3, slower, is_tidied)?;
        Some([
            matches!(kept, Ok(Told::Accepted(_))),
            replaced == Err(NotBooked::PlanChanged),
            matches!(equal, Ok(Told::Accepted(_))),
        ])
    }

    /// Whether the second message alone was refused, and the others are in the history, with both deployments.
    fn is_right<S: BookRows>(&self, done: &Done<[bool; 3], S>) -> bool {
        done.answer == [true; 3] && done.closed.book().len() == 4
    }
}

/// Whether messages are booked as they are to be, each tidied first or not.
fn judges<H: Wait + Log>(
    rt: &H,
    alloc: Global,
    hasher: RandomState,
    is_tidied: bool,
) -> Result<bool, Fail> {
    let Some(slower) = plan_of(alloc, SLOWER) else {
        return Err("a plan".into());
    };
    let task = Judging { slower, is_tidied };
    comes_out(rt, alloc, hasher, &EMPTY, &task)
}

/// A message that was judged by the plan in force is booked. One that was judged by another plan is refused, and one that was
/// judged by an equal plan, which was deployed again since, is booked.
#[test]
fn plans_are_known_by_number(rt: HostRuntime) -> Result<(), Fail> {
    let hasher = RandomState::new(&rt)?;
    for is_tidied in [false, true] {
        let right = judges(&rt, rt.alloc(), hasher, is_tidied)?;
        assert!(rt; right);
    }
    Ok(())
}
