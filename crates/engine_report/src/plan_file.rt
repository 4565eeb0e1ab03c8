//! The plan in a file.

use crate::fault::Fault;
use crate::reading::{explained_plan, tell_lines};
use plan_notes::{file_note, held_back_notes, long_file_note, room_notes, warnings};
use plan_text::Plan;
use std::fs;
use std::io::ErrorKind;

/// The bytes of a plan's file. A note on standard error says why it can't be read.
fn plan_file<'a>(rt: &HostRuntime, path: &'a str) -> Result<Vec<u8>, Fault<'a>> {
    match fs::read(rt, path) {
        Ok(text) => Ok(text),
        Err(error) if error.kind() == ErrorKind::OutOfMemory => Err(Fault::Memory),
        Err(error) => {
            tell_lines(rt, file_note(rt.alloc(), path, &error));
            Err(Fault::File(path))
        }
    }
}

/// Refuses a file that has more bytes than a plan may have. A file whose size can't be found out is left to the read that follows.
///
/// # Errors
///
/// `File` where it has more than `most` bytes, after a note on standard error.
pub fn bounded_file<'a>(rt: &HostRuntime, path: &'a str, most: u64) -> Result<(), Fault<'a>> {
    match fs::metadata(rt, path) {
        Ok(found) if found.len() > most => {
            tell_lines(rt, long_file_note(rt.alloc(), path, most));
            Err(Fault::File(path))
        }
        _ => Ok(()),
    }
}

/// The plan in a file.
///
/// # Errors
///
/// `File` where the file can't be read, `Plan` where the plan has a fault, each after notes on standard error; `Memory`.
pub fn read_plan<'a>(rt: &HostRuntime, path: &'a str) -> Result<Plan, Fault<'a>> {
    explained_plan(rt, &plan_file(rt, path)?)
}

/// The plan in a file. Lines on standard error warn of what it is unlikely to mean.
fn plan_with_warnings<'a>(rt: &HostRuntime, path: &'a str) -> Result<Plan, Fault<'a>> {
    let text = plan_file(rt, path)?;
    let plan = explained_plan(rt, &text)?;
    tell_lines(rt, warnings(rt.alloc(), &text, &plan));
    Ok(plan)
}

/// The plan in a file. Lines on standard error warn of what it is unlikely to mean, and say how many messages of each channel a
/// book of `events` entries takes.
///
/// # Errors
///
/// Those of [`read_plan`].
pub fn warned_plan<'a>(rt: &HostRuntime, path: &'a str, events: u32) -> Result<Plan, Fault<'a>> {
    let plan = plan_with_warnings(rt, path)?;
    tell_lines(rt, room_notes(rt.alloc(), &plan, events));
    Ok(plan)
}

/// The plan in a file, as [`warned_plan`] reads it. The lines say how many messages of each channel the book of a service with
/// `events` entries takes until what follows is held back.
///
/// # Errors
///
/// Those of [`read_plan`].
pub fn warned_service_plan<'a>(
    rt: &HostRuntime,
    path: &'a str,
    events: u32,
) -> Result<Plan, Fault<'a>> {
    let plan = plan_with_warnings(rt, path)?;
    tell_lines(rt, held_back_notes(rt.alloc(), &plan, events));
    Ok(plan)
}
