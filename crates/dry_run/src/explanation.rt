//! How a message fares in a channel: at its filter, at its steps, and on each route.

ghost use Rattle.std.specs.Prelude.{◌≡◌, All, IfOk, MatchResult, None, map, option_map};
ghost use Rattle.er7_tree.specs.Tree.{Tree};
ghost use Rattle.hl7_filter.specs.inner.View.{view as condition_view};
ghost use Rattle.hl7_transform.specs.Step.{after_steps};
ghost use Rattle.hl7_transform.specs.inner.View.{steps_view};
ghost use Rattle.plan_text.specs.Entries.{AllStand};
ghost use Rattle.judge_core.specs.Judging.{passes};
ghost use Rattle.dry_run.specs.inner.Ways.{Explains, Steps, stop_of, way, ways};

use er7_tree::Message;
use hl7_filter::Cond;
use hl7_transform::{Step, StepFault, StopCause, apply};
use plan_text::{Channel, Route};
use std::alloc::{AllocError, Global};

/// A step that can't be taken.
#[derive(Clone, Copy, Debug, PartialEq, Eq)]
pub struct Stopped {
    /// Its index among the steps, from 0 on.
    pub place: usize,
    /// Why it can't be taken.
    pub cause: StopCause,
}

/// How a message fares on a route.
#[derive(Clone, Copy, Debug, PartialEq, Eq)]
pub struct Way {
    /// The destination's index in the plan.
    pub to: u32,
    /// Whether the route's filter is true of the message, or there is none.
    pub passes: bool,
    /// The route's first step that can't be taken, where the filter is true.
    pub stop: Option<Stopped>,
}

/// How a message fares in a channel.
#[derive(Drop)]
pub struct Explanation {
    /// Whether the channel's filter is true of the message, or there is none.
    pub passes: bool,
    /// The channel's first step that can't be taken, where the filter is true.
    pub stop: Option<Stopped>,
    /// How what the channel's steps make of it fares on each route, in the order of the plan. Without routes where the
    /// message doesn't come so far.
    pub ways: Vec<Way>,
}

/// What steps make of a message.
#[derive(Drop)]
enum Changed {
    /// The message after them.
    Taken(Message),
    /// The first of them that can't be taken.
    Stopped(Stopped),
}

/// What steps make of a message.
fn after_steps(steps: &[Step], message: Message) -> Result<Changed, AllocError>
    requires { AllStand (steps_view steps.now) }
    ensures { IfOk result (λ it. Steps (after_steps (steps_view steps.now) message) it) }
{
    match apply(steps, message) {
        Ok(message) => Ok(Changed::Taken(message)),
        Err(StepFault::Stopped { place, cause }) => {
            Ok(Changed::Stopped(Stopped { place, cause }))
        }
        Err(StepFault::NoMemory) => Err(AllocError),
    }
}

/// Whether a message passes a filter; where there is none each message does.
fn passes(filter: Option<&Cond>, message: &Message) -> Result<bool, AllocError>
    ensures { IfOk result (λ b. b ≡ passes message.now (option_map (λ c. condition_view c.now) filter.entry)) }
{
    match filter {
        Some(condition) => condition.holds(message),
        None => Ok(true),
    }
}

/// The first of some steps that can't be taken at a message, if there is one.
fn stop_at(steps: &[Step], message: &Message) -> Result<Option<Stopped>, AllocError>
    requires { AllStand (steps_view steps.now) }
    ensures { IfOk result (λ stop. stop ≡ stop_of (after_steps (steps_view steps.now) message.now)) }
{
    match after_steps(steps, message.clone()?)? {
        Changed::Taken(_) => Ok(None),
        Changed::Stopped(stopped) => Ok(Some(stopped)),
    }
}

/// How a message fares on a route.
fn way_of(route: &Route, message: &Message) -> Result<Way, AllocError>
    requires { AllStand route.now.steps }
    ensures { IfOk result (λ it. it ≡ way message.now route.now) }
{
    let to = route.to();
    if !passes(route.filter(), message)? {
        return Ok(Way {
            to,
            passes: false,
            stop: None,
        });
    }
    let stop = stop_at(route.steps(), message)?;
    Ok(Way {
        to,
        passes: true,
        stop,
    })
}

/// How a message fares on each route.
fn ways(alloc: Global, routes: &[Route], message: &Message) -> Result<Vec<Way>, AllocError>
    requires { All (λ r. AllStand r.steps) routes.now }
    ensures { IfOk result (λ all. all.items ≡ map (way message.now) routes.now) }
{
    let mut all = Vec::new(alloc);
    for route in routes {
        all.push(way_of(route, message)?)?;
    }
    Ok(all)
}

/// How a message fares in a channel, at its filter, its steps and its routes. What its header says is not looked at.
///
/// # Errors
///
/// Where memory is refused.
pub fn explain(
    alloc: Global,
    channel: &Channel,
    message: Message,
) -> Result<Explanation, AllocError>
    requires stand { AllStand channel.now.steps }
    requires routes_stand { All (λ r. AllStand r.steps) channel.now.routes }
    ensures { IfOk result (λ it. Explains channel.now message it) }
{
    if !passes(channel.filter(), &message)? {
        return Ok(Explanation {
            passes: false,
            stop: None,
            ways: Vec::new(alloc),
        });
    }
    match after_steps(channel.steps(), message)? {
        Changed::Taken(message) => Ok(Explanation {
            passes: true,
            stop: None,
            ways: ways(alloc, channel.routes(), &message)?,
        }),
        Changed::Stopped(stopped) => Ok(Explanation {
            passes: true,
            stop: Some(stopped),
            ways: Vec::new(alloc),
        }),
    }
}
