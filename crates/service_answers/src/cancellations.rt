//! The results of a cancellation, as texts.

use crate::contents::elsewhere_text;
use crate::live::{Live, live_of};
use crate::messages::{add_id, add_state, header_of};
use book_lock::Found;
use dest_queue::SlotState;
use event_log::CancelRefusal;
use plan_text::Plan;
use service_commands::Refused;
use std::alloc::{AllocError, Global};
use std::fmt;

/// The destinations of a plan whose bits a mask has: their names, with commas between them.
#[derive(Clone, Copy)]
pub struct Places<'a> {
    /// The plan.
    pub plan: &'a Plan,
    /// The mask: bit 0 is that of the first destination.
    pub mask: u32,
}

impl fmt::Display for Places<'_> {
    fn fmt<W: fmt::Write>(&self, f: &mut fmt::Formatter<W>) -> fmt::Result {
        let mut before = "";
        for index in 0..self.plan.destinations() {
            if let Some(destination) = self.plan.destination(index)
                && self.mask.checked_shr(index).unwrap_or(0) % 2 == 1
            {
                f.write_str(before)?;
                f.write_str(destination.name())?;
                before = ",";
            }
        }
        Ok(())
    }
}

/// The control id (MSH-10) of a message as received; nothing where it is not kept or can't be read.
///
/// # Errors
///
/// Where memory is refused.
pub fn control_id_of(alloc: Global, found: &Found) -> Result<Vec<u8>, AllocError> {
    if let Found::Kept(message) = found
        && let Some(header) = header_of(alloc, message.raw.as_slice())?
    {
        return Vec::from_slice(alloc, header.control_id());
    }
    Ok(Vec::new(alloc))
}

/// Adds where a message is in flight, if it is anywhere.
fn add_in_flight(text: &mut String, plan: &Plan, mask: u32) -> Result<(), AllocError> {
    if mask != 0 {
        let places = Places { plan, mask };
        writeln!(text, "in flight at {places}: that attempt goes on")?;
    }
    Ok(())
}

/// The names of the destinations at which a message was cancelled, by their mask, a line each, and where it is in flight, by
/// another mask.
///
/// # Errors
///
/// Where memory is refused.
pub fn cancelled_text(
    alloc: Global,
    plan: &Plan,
    mask: u32,
    in_flight: u32,
) -> Result<String, AllocError> {
    let mut text = String::new(alloc);
    for index in 0..plan.destinations() {
        if let Some(destination) = plan.destination(index)
            && mask.checked_shr(index).unwrap_or(0) % 2 == 1
        {
            writeln!(text, "cancelled {}", destination.name())?;
        }
    }
    add_in_flight(&mut text, plan, in_flight)?;
    writeln!(text, "")?;
    Ok(text)
}

/// The answer to a cancellation that doesn't say where, of a message that waits at several destinations: where it waits, the two
/// commands that would cancel it, and where it is in flight.
///
/// # Errors
///
/// Where memory is refused.
pub fn several_text(
    alloc: Global,
    plan: &Plan,
    number: u32,
    live: Live,
) -> Result<String, AllocError> {
    let places = Places {
        plan,
        mask: live.waiting,
    };
    let mut text = format!(in alloc; "refused: message {number} waits at {places}\n")?;
    writeln!(text, "to cancel it at one of them: cancel {number} NAME")?;
    writeln!(text, "to cancel it at each of them: cancel {number} all")?;
    add_in_flight(&mut text, plan, live.in_flight)?;
    writeln!(text, "")?;
    Ok(text)
}

/// The answer to a cancellation that is refused, where `found` is what the book says of the message: one that waits nowhere is in
/// flight at destinations, which are named, or settled at each of its destinations.
///
/// # Errors
///
/// Where memory is refused.
pub fn not_cancelled_text(
    alloc: Global,
    plan: &Plan,
    number: u32,
    found: &Found,
    refusal: CancelRefusal,
) -> Result<String, AllocError> {
    if let (CancelRefusal::NothingWaiting, Found::Kept(_)) = (refusal, found) {
        let mask = live_of(found).in_flight;
        if mask == 0 {
            return format!(in alloc;
                "refused: message {number} waits nowhere: it is delivered or failed at each of its destinations\n\n"
            );
        }
        let places = Places { plan, mask };
        return format!(in alloc;
            "refused: message {number} is in flight at {places}: cancel it where it waits again after that attempt\n\n"
        );
    }
    format!(in alloc; "{}", Refused(refusal))
}

/// The answer to a cancellation at one destination that is refused, where `state` is that of the message there, if it goes there.
/// One that waits there by now was in flight when it was to be cancelled.
///
/// # Errors
///
/// Where memory is refused.
pub fn not_cancelled_at_text(
    alloc: Global,
    name: &str,
    number: u32,
    state: Option<SlotState>,
) -> Result<String, AllocError> {
    match state {
        None => elsewhere_text(alloc, number, name),
        Some(SlotState::Waiting { .. } | SlotState::InFlight { .. }) => format!(in alloc;
            "refused: message {number} is in flight at {name}: cancel it where it waits again after that attempt\n\n"
        ),
        Some(state) => {
            let mut text = format!(in alloc;
                "refused: message {number} does not wait at {name}: "
            )?;
            add_state(&mut text, state)?;
            writeln!(text, "\n")?;
            Ok(text)
        }
    }
}

/// Messages at a destination, in the order of their numbers.
#[derive(Drop)]
pub struct Series {
    /// How many there are.
    pub count: u32,
    /// The number of the first.
    pub first: u32,
    /// The control id (MSH-10) of the first.
    pub first_id: Vec<u8>,
    /// The number of the last.
    pub last: u32,
    /// The control id (MSH-10) of the last.
    pub last_id: Vec<u8>,
}

/// Adds how many messages there are, and the first and the last one.
fn add_series(text: &mut String, series: &Series) -> Result<(), AllocError> {
    write!(text, "{}", series.count)?;
    if series.count > 0 {
        write!(text, " from ")?;
        add_id(&mut *text, series.first, &series.first_id)?;
        write!(text, " to ")?;
        add_id(&mut *text, series.last, &series.last_id)?;
    }
    writeln!(text, "")
}

/// How many messages wait at a destination, from which to which, the command that cancels them, and the message in flight there.
/// Of messages that don't wait `series` has nothing.
///
/// # Errors
///
/// Where memory is refused.
pub fn cancellable_text(
    alloc: Global,
    name: &str,
    series: &Series,
    in_flight: Option<u32>,
) -> Result<String, AllocError> {
    let mut text = format!(in alloc; "waiting ")?;
    add_series(&mut text, series)?;
    if let Some(number) = in_flight {
        writeln!(text, "message {number} is in flight, and not counted")?;
    }
    if series.count > 0 {
        writeln!(
            text,
            "to cancel them: cancel waiting {name} through {}",
            series.last
        )?;
    }
    writeln!(text, "")?;
    Ok(text)
}

/// How many messages were cancelled at a destination, from which to which, and whether memory was refused before all were.
///
/// # Errors
///
/// Where memory is refused.
pub fn series_cancelled_text(
    alloc: Global,
    series: &Series,
    is_whole: bool,
) -> Result<String, AllocError> {
    let mut text = format!(in alloc; "cancelled ")?;
    add_series(&mut text, series)?;
    if !is_whole {
        writeln!(text, "out of memory: those behind still wait")?;
    }
    writeln!(text, "")?;
    Ok(text)
}
