//! Plans that are deployed in a shared book.

use crate::stage::{Done, M1, SLOWER, Task, Waiting, comes_out, plan, plan_of};
use book_core::{BookRows, DeployRefusal, EVENTS_MAX};
use book_lock::{Desk, Shared, Sharing, Station};
use log::Log;
use plan_text::Plan;
use std::alloc::Global;
use std::hash::RandomState;
use std::sync::{Arc, Wait};
use std::test::Fail;

/// The results of two deployments: why the first was refused, whether the second was, and which plan is in force.
#[derive(Drop)]
struct Answers {
    first: Option<DeployRefusal>,
    second: Option<DeployRefusal>,
    told: Arc<Plan>,
}

/// Deploys the plan of four destinations, and then the slower one.
#[derive(Drop)]
struct Deployments {
    slower: Arc<Plan>,
}

impl Task for Deployments {
    type Answer = Answers;

    fn work<A: Sharing, S: BookRows, H: Wait + Log>(
        &self,
        rt: &H,
        alloc: Global,
        shared: &Shared<A, S>,
        _: &mut [Desk<A>],
        _: &mut [Station<A>],
    ) -> Option<Answers> {
        let (four, slower) = (plan(alloc, true)?, Arc::try_clone(&self.slower).ok()?);
        Some(Answers {
            first: shared.deploy(rt, four).err(),
            second: shared.deploy(rt, slower).err(),
            told: shared.plan(rt).ok()?,
        })
    }

    /// Whether the first plan was refused for a destination in use, and the slower one is in force and in the history.
    fn is_right<S: BookRows>(&self, done: &Done<Answers, S>) -> bool {
        let (answers, book) = (&done.answer, done.closed.book());
        answers.first == Some(DeployRefusal::DestinationInUse(0))
            && answers.second.is_none()
            && *answers.told == *self.slower
            && **book.plan() == *self.slower
            && book.len() == 2
    }
}

/// A book in which one message waits.
const ONE: Waiting = Waiting {
    four: false,
    room: EVENTS_MAX,
    messages: &[M1],
};

/// A plan that lacks a destination to which a message waits is refused. One that only waits longer between two attempts is
/// in force from then on, and is in the history.
#[test]
fn plans_are_deployed(rt: HostRuntime) -> Result<(), Fail> {
    let hasher = RandomState::new(&rt)?;
    let Some(slower) = plan_of(rt.alloc(), SLOWER) else {
        return Err("a plan".into());
    };
    let task = Deployments { slower };
    let right = comes_out(&rt, rt.alloc(), hasher, &ONE, &task)?;
    assert!(rt; right);
    Ok(())
}
