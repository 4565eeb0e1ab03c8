//! `try`: what would become of the messages on standard input.

ghost use Rattle.std.specs.Prelude.{◌≡◌, ◌<◌, IfOk, IfSome, length};

use dry_run::{Trial, TryFault, try_input};
use engine_report::{Ended, Fault, Trouble, bounded_file, read_plan};
use hl7_head::Moment;
use plan_text::Plan;
use service_run::PLAN_BYTES;
use std::alloc::{AllocError, Global};
use std::io::{ErrorKind, Read};
use std::sync::Arc;

/// The moment in MSH-7 of each acknowledgment that is printed, so that two trials of one message print the same: 14 November
/// 2023, 22:13:20 UTC.
const TRIAL_MOMENT: i64 = 1_700_000_000;

/// The index of the channel of a name.
fn place_of(plan: &Plan, name: &str) -> Option<u32>
    ensures { IfSome result (λ place. place < length plan.now.channels) }
{
    for place in 0..plan.channels() {
        if let Some(channel) = plan.channel(place)
            && channel.name() == name
        {
            return Some(place);
        }
    }
    None
}

/// The names of a plan's channels.
fn names_of(alloc: Global, plan: &Plan) -> Result<String, AllocError> {
    let mut names = String::new(alloc);
    for place in 0..plan.channels() {
        if let Some(channel) = plan.channel(place) {
            if place > 0 {
                names.push_str(", ")?;
            }
            names.push_str(channel.name())?;
        }
    }
    Ok(names)
}

/// The index of the channel that was named, or of the plan's first one.
fn channel_of<'a>(alloc: Global, plan: &Plan, named: Option<&'a str>) -> Result<u32, Trouble<'a>>
    ensures { IfOk result (λ place. place < length plan.now.channels) }
{
    plan.rules();
    let Some(given) = named else {
        return Ok(0);
    };
    match place_of(plan, given) {
        Some(place) => Ok(place),
        None => {
            let names = names_of(alloc, plan)?;
            Err(Trouble::NoChannel { given, names })
        }
    }
}

/// All of standard input.
fn read_input<'a>(rt: &HostRuntime) -> Result<Vec<u8>, Fault<'a>> {
    let mut input = Vec::new(rt.alloc());
    match rt.stdin().read_to_end(&mut input) {
        Ok(_) => Ok(input),
        Err(error) if error.kind() == ErrorKind::OutOfMemory => Err(Fault::Memory),
        Err(_) => Err(Fault::Read),
    }
}

/// The fault that is reported where trying ends early.
fn fault_of<'a>(fault: TryFault) -> Fault<'a> {
    match fault {
        TryFault::Memory => Fault::Memory,
        TryFault::Write => Fault::Write,
    }
}

/// Prints what would become of each message on standard input, by the plan in a file, on the channel that was named, or on the
/// plan's first one. Nothing is kept and nothing is sent.
///
/// # Errors
///
/// The fault of the plan, of a device or of memory; `NoChannel` where the plan has no channel of that name.
pub(crate) fn try_messages<'a>(
    rt: &HostRuntime,
    path: &'a str,
    channel: Option<&'a str>,
) -> Result<Ended, Trouble<'a>> {
    let alloc = rt.alloc();
    bounded_file(rt, path, PLAN_BYTES)?;
    let plan = Arc::new(alloc, read_plan(rt, path)?).map_err(AllocError::from)?;
    let channel = channel_of(alloc, &plan, channel)?;
    let input = read_input(rt)?;
    let moment = Moment::of_unix(TRIAL_MOMENT).unwrap();
    let trial = Trial {
        alloc,
        plan,
        channel,
        moment,
    };
    match try_input(&trial, &input, &mut rt.stdout()) {
        Ok(true) => Ok(Ended::Done),
        Ok(false) => Ok(Ended::Refused),
        Err(fault) => Err(Trouble::Engine(fault_of(fault))),
    }
}
