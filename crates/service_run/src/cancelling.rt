//! The commands that cancel messages.

ghost use Rattle.std.specs.Prelude.{◌<◌};

use crate::questions::no_destination_text;
use book_core::Front;
use book_lock::{Found, Sharing};
use event_log::CancelRefusal;
use log::{Log, info};
use log_text::ControlId;
use plan_text::Plan;
use service_answers::{
    Places, Series, cancellable_text, cancelled_text, control_id_of, live_of,
    not_cancelled_at_text, not_cancelled_text, series_cancelled_text, several_text, state_at,
};
use service_commands::Refused;
use service_web::{SLICE, destination_named};
use service_workers::{Crew, Site};
use std::alloc::AllocError;

/// Cancels a message where it waits at one of the destinations of a mask, and logs it. Returns the mask of those where it did.
fn cancel_among<A: Sharing, H: Crew>(
    site: &Site<'_, A, H>,
    plan: &Plan,
    number: u32,
    found: &Found,
    among: u32,
) -> Result<Result<u32, CancelRefusal>, AllocError> {
    let id = control_id_of(site.alloc, found)?;
    match site.shared.cancel_among(site.rt, number, among) {
        Ok(mask) => {
            let destinations = Places { plan, mask };
            info!(site.rt; target: "always", message = number, control_id:% = ControlId(&id), destinations:% = destinations; "message cancelled");
            site.note_cancelled(number, mask);
            Ok(Ok(mask))
        }
        Err(refusal) => Ok(Err(refusal)),
    }
}

/// Says why a message was cancelled at no destination, by where it is now.
fn uncancelled_text<A: Sharing, H: Crew>(
    site: &Site<'_, A, H>,
    plan: &Plan,
    number: u32,
    refusal: CancelRefusal,
) -> Result<String, AllocError> {
    let found = site.shared.message(site.rt, number)?;
    not_cancelled_text(site.alloc, plan, number, &found, refusal)
}

/// Cancels a message where it waits at one of the destinations of a mask, and says at which it did, or why at none.
fn cancel_in<A: Sharing, H: Crew>(
    site: &Site<'_, A, H>,
    plan: &Plan,
    number: u32,
    found: &Found,
    among: u32,
) -> Result<String, AllocError> {
    match cancel_among(site, plan, number, found, among)? {
        Ok(mask) => cancelled_text(site.alloc, plan, mask, live_of(found).in_flight),
        Err(refusal) => uncancelled_text(site, plan, number, refusal),
    }
}

/// Cancels a message at the one destination where it waits. Where it waits at several it is refused, with their names.
///
/// # Errors
///
/// Where memory is refused, or the plan has more owners than can be counted.
pub(crate) fn do_cancel<A: Sharing, H: Crew>(
    site: &Site<'_, A, H>,
    number: u32,
) -> Result<String, AllocError> {
    let plan = site.shared.plan(site.rt)?;
    let found = site.shared.message(site.rt, number)?;
    let live = live_of(&found);
    if live.waiting.count_ones() > 1 {
        return several_text(site.alloc, &plan, number, live);
    }
    cancel_in(site, &plan, number, &found, live.waiting)
}

/// Cancels a message wherever it waits.
///
/// # Errors
///
/// Where memory is refused, or the plan has more owners than can be counted.
pub(crate) fn do_cancel_all<A: Sharing, H: Crew>(
    site: &Site<'_, A, H>,
    number: u32,
) -> Result<String, AllocError> {
    let plan = site.shared.plan(site.rt)?;
    let found = site.shared.message(site.rt, number)?;
    cancel_in(site, &plan, number, &found, u32::MAX)
}

/// Says that a message doesn't wait at a destination, and in which state it is there.
fn not_waiting_text<A: Sharing, H: Crew>(
    site: &Site<'_, A, H>,
    number: u32,
    destination: u32,
    name: &str,
) -> Result<String, AllocError> {
    let found = site.shared.message(site.rt, number)?;
    not_cancelled_at_text(site.alloc, name, number, state_at(&found, destination))
}

/// Cancels a message at a destination.
fn cancel_at<A: Sharing, H: Crew>(
    site: &Site<'_, A, H>,
    plan: &Plan,
    number: u32,
    destination: u32,
    name: &str,
) -> Result<String, AllocError>
    requires { destination < 32 }
{
    let found = site.shared.message(site.rt, number)?;
    match cancel_among(site, plan, number, &found, 1 << destination)? {
        Ok(mask) => cancelled_text(site.alloc, plan, mask, live_of(&found).in_flight),
        Err(CancelRefusal::NothingWaiting) => not_waiting_text(site, number, destination, name),
        Err(refusal) => format!(in site.alloc; "{}", Refused(refusal)),
    }
}

/// Cancels a message at the destination of a name.
///
/// # Errors
///
/// Where memory is refused, or the plan has more owners than can be counted.
pub(crate) fn do_cancel_at<A: Sharing, H: Crew>(
    site: &Site<'_, A, H>,
    number: u32,
    name: &[u8],
) -> Result<String, AllocError> {
    let plan = site.shared.plan(site.rt)?;
    if let Some(index) = destination_named(&plan, name)
        && let Some(destination) = plan.destination(index)
    {
        return cancel_at(site, &plan, number, index, destination.name());
    }
    no_destination_text(site.alloc)
}

/// What waits at a destination: how many messages, and the numbers of the first and of the last one.
#[derive(Clone, Copy)]
struct Waits {
    count: u32,
    first: u32,
    last: u32,
    /// The message that is in flight there.
    in_flight: Option<u32>,
}

impl Waits {
    /// With one message more, behind the others.
    fn with(self, front: Front) -> Waits {
        let Front { number, state } = front;
        if !state.is_waiting() {
            return Waits {
                in_flight: Some(number),
                ..self
            };
        }
        let first = if self.count == 0 { number } else { self.first };
        Waits {
            count: self.count.saturating_add(1),
            first,
            last: number,
            ..self
        }
    }
}

/// What waits at a destination, looked for a slice at a time.
fn waits_at<A: Sharing, H: Crew>(
    site: &Site<'_, A, H>,
    destination: u32,
) -> Result<Waits, AllocError> {
    let mut waits = Waits {
        count: 0,
        first: 0,
        last: 0,
        in_flight: None,
    };
    let Some(front) = site.shared.front(site.rt, destination) else {
        return Ok(waits);
    };
    let messages = site.shared.gauge(site.rt).messages;
    for from in (front.number..messages).step_by(SLICE as usize) {
        for front in site.shared.waiting(site.rt, destination, from, SLICE)? {
            waits = waits.with(front);
        }
    }
    Ok(waits)
}

/// The control id of a message.
fn id_of<A: Sharing, H: Crew>(site: &Site<'_, A, H>, number: u32) -> Result<Vec<u8>, AllocError> {
    let found = site.shared.message(site.rt, number)?;
    control_id_of(site.alloc, &found)
}

/// What waits at a destination, by its first and its last message.
fn waiting_series<A: Sharing, H: Crew>(
    site: &Site<'_, A, H>,
    waits: Waits,
) -> Result<Series, AllocError> {
    let first_id = id_of(site, waits.first)?;
    Ok(Series {
        count: waits.count,
        first: waits.first,
        first_id,
        last: waits.last,
        last_id: id_of(site, waits.last)?,
    })
}

/// Says how many messages wait at the destination of a name, from which to which, and with which command they are cancelled. It
/// changes nothing.
///
/// # Errors
///
/// Where memory is refused, or the plan has more owners than can be counted.
pub(crate) fn ask_cancel_waiting<A: Sharing, H: Crew>(
    site: &Site<'_, A, H>,
    name: &[u8],
) -> Result<String, AllocError> {
    let plan = site.shared.plan(site.rt)?;
    if let Some(index) = destination_named(&plan, name)
        && let Some(destination) = plan.destination(index)
    {
        let waits = waits_at(site, index)?;
        let series = waiting_series(site, waits)?;
        return cancellable_text(site.alloc, destination.name(), &series, waits.in_flight);
    }
    no_destination_text(site.alloc)
}

/// A message that was cancelled, with what the book said of it before.
#[derive(Drop)]
struct Cancelled {
    number: u32,
    found: Found,
}

/// The messages that a command has cancelled at a destination so far.
#[derive(Drop)]
struct Progress {
    count: u32,
    first: Option<Cancelled>,
    /// The last one, where it is not the first.
    last: Option<Cancelled>,
}

impl Progress {
    /// Adds a message.
    fn add(&mut self, cancelled: Cancelled) {
        self.count = self.count.saturating_add(1);
        if self.first.is_none() {
            self.first = Some(cancelled);
        } else {
            self.last = Some(cancelled);
        }
    }
}

/// Cancels a message at a destination, where it still waits there.
fn cancel_next<A: Sharing, H: Crew>(
    site: &Site<'_, A, H>,
    destination: u32,
    number: u32,
    progress: &mut Progress,
) -> Result<(), AllocError>
    requires { destination < 32 }
{
    let found = site.shared.message(site.rt, number)?;
    match site.shared.cancel_among(site.rt, number, 1 << destination) {
        Ok(mask) => {
            site.note_cancelled(number, mask);
            progress.add(Cancelled { number, found });
            Ok(())
        }
        Err(CancelRefusal::NoMemory) => Err(AllocError),
        Err(_) => Ok(()),
    }
}

/// Cancels the messages that wait at a destination and have a number up to this one, looked for a slice at a time.
fn cancel_through<A: Sharing, H: Crew>(
    site: &Site<'_, A, H>,
    destination: u32,
    through: u32,
    progress: &mut Progress,
) -> Result<(), AllocError>
    requires { destination < 32 }
{
    let Some(front) = site.shared.front(site.rt, destination) else {
        return Ok(());
    };
    let end = site
        .shared
        .gauge(site.rt)
        .messages
        .min(through.saturating_add(1));
    for from in (front.number..end).step_by(SLICE as usize) {
        let most = SLICE.min(end.saturating_sub(from));
        for front in site.shared.waiting(site.rt, destination, from, most)? {
            if front.state.is_waiting() {
                cancel_next(site, destination, front.number, &mut *progress)?;
            }
        }
    }
    Ok(())
}

/// The number and the control id of a message that was cancelled.
fn ended<A: Sharing, H: Crew>(site: &Site<'_, A, H>, cancelled: &Cancelled) -> (u32, Vec<u8>) {
    let id = control_id_of(site.alloc, &cancelled.found).unwrap_or(Vec::new(site.alloc));
    (cancelled.number, id)
}

/// What was cancelled, by its first and its last message.
fn series_of<A: Sharing, H: Crew>(site: &Site<'_, A, H>, progress: &Progress) -> Series {
    let (first, first_id) = match &progress.first {
        Some(cancelled) => ended(site, cancelled),
        None => (0, Vec::new(site.alloc)),
    };
    let (last, last_id) = match progress.last.as_ref().or(progress.first.as_ref()) {
        Some(cancelled) => ended(site, cancelled),
        None => (0, Vec::new(site.alloc)),
    };
    Series {
        count: progress.count,
        first,
        first_id,
        last,
        last_id,
    }
}

/// Cancels the messages that wait at a destination up to this number, logs and says how many.
fn cancel_series<A: Sharing, H: Crew>(
    site: &Site<'_, A, H>,
    destination: u32,
    name: &str,
    through: u32,
) -> Result<String, AllocError>
    requires { destination < 32 }
{
    let mut progress = Progress {
        count: 0,
        first: None,
        last: None,
    };
    let is_whole = cancel_through(site, destination, through, &mut progress).is_ok();
    let series = series_of(site, &progress);
    if series.count > 0 {
        info!(site.rt; target: "always", destination = name, messages = series.count, first = series.first, first_control_id:% = ControlId(&series.first_id), last = series.last, last_control_id:% = ControlId(&series.last_id); "waiting messages cancelled");
    }
    series_cancelled_text(site.alloc, &series, is_whole)
}

/// Cancels the messages that wait at the destination of a name up to this number.
///
/// # Errors
///
/// Where memory is refused, or the plan has more owners than can be counted.
pub(crate) fn do_cancel_through<A: Sharing, H: Crew>(
    site: &Site<'_, A, H>,
    name: &[u8],
    through: u32,
) -> Result<String, AllocError> {
    let plan = site.shared.plan(site.rt)?;
    if let Some(index) = destination_named(&plan, name)
        && let Some(destination) = plan.destination(index)
    {
        return cancel_series(site, index, destination.name(), through);
    }
    no_destination_text(site.alloc)
}
