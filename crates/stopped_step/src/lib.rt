//! The step at which a message stops that a channel refuses for a step: which one, of which route, and why.
#![tactic(auto)]

ghost use Rattle.std.specs.Prelude.{◌≡◌, IfOk, All, Some, option_map};
ghost use Rattle.hl7_filter.specs.inner.View.{view as condition_view};
ghost use Rattle.hl7_transform.specs.Step.{after_steps};
ghost use Rattle.hl7_transform.specs.inner.View.{steps_view};
ghost use Rattle.judge_core.specs.Judging.{passes};
ghost use Rattle.plan_text.specs.Entries.{AllStand};
ghost use Rattle.stopped_step.specs.inner.Stopping.{stop_after, stop_by, stop_in, stop_of};

use er7_tree::Message;
use hl7_filter::Cond;
use hl7_transform::{Step, StepFault, StopCause, apply};
use plan_text::{Channel, Route};
use std::alloc::AllocError;

/// A step that can't be applied to a message.
#[derive(Clone, Copy, Debug, PartialEq, Eq)]
pub struct StoppedStep {
    /// The index of the route among those of its channel, from 0; none for a step of the channel itself.
    pub route: Option<usize>,
    /// The index of the step among those of the route or of the channel, from 0.
    pub step: usize,
    /// Why it can't be applied.
    pub cause: StopCause,
}

/// Whether a message passes a filter; where there is none each message does.
fn passes(filter: Option<&Cond>, message: &Message) -> Result<bool, AllocError>
    ensures { IfOk result (λ b. b ≡ passes message.now (option_map (λ c. condition_view c.now) filter.entry)) }
{
    match filter {
        Some(condition) => condition.holds(message),
        None => Ok(true),
    }
}

/// The stop of a route's steps.
fn stop_by(
    index: usize,
    steps: &[Step],
    message: Message,
) -> Result<Option<StoppedStep>, AllocError>
    requires { AllStand (steps_view steps.now) }
    ensures { IfOk result (λ stop. stop ≡ stop_by (Some index) (after_steps (steps_view steps.now) message)) }
{
    match apply(steps, message) {
        Ok(_) => Ok(None),
        Err(StepFault::Stopped { place, cause }) => Ok(Some(StoppedStep {
            route: Some(index),
            step: place,
            cause,
        })),
        Err(StepFault::NoMemory) => Err(AllocError),
    }
}

/// The first stop of these routes.
fn stop_in(routes: &[Route], message: &Message) -> Result<Option<StoppedStep>, AllocError>
    requires { All (λ r. AllStand r.steps) routes.now }
    ensures { IfOk result (λ stop. stop ≡ stop_in 0 message.now routes.now) }
{
    for (index, route) in routes.iter().enumerate() {
        if passes(route.filter(), message)? {
            let stop = stop_by(index, route.steps(), message.clone()?)?;
            if stop.is_some() {
                return Ok(stop);
            }
        }
    }
    Ok(None)
}

/// The step at which a message stops on its way through a channel: the first of the channel's steps that can't be applied,
/// else the first of the first route whose filter is true and whose steps stop; none where no step stops.
///
/// # Errors
///
/// Where memory is refused.
pub fn stop_of(channel: &Channel, message: Message) -> Result<Option<StoppedStep>, AllocError>
    requires stand { AllStand channel.now.steps }
    requires routes_stand { All (λ r. AllStand r.steps) channel.now.routes }
    ensures { IfOk result (λ stop. stop ≡ stop_of channel.now message) }
{
    match apply(channel.steps(), message) {
        Ok(message) => stop_in(channel.routes(), &message),
        Err(StepFault::Stopped { place, cause }) => Ok(Some(StoppedStep {
            route: None,
            step: place,
            cause,
        })),
        Err(StepFault::NoMemory) => Err(AllocError),
    }
}
