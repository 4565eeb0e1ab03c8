//! Notes that explain a fault of a plan.

use crate::line::Line;
use crate::lines::Lines;
use crate::position::Position;
use crate::shown::Quoted;
use crate::spot::Spot;
use crate::{path_notes, value_notes};
use plan_text::{Channel, PlanFault, PlanFaultKind};
use std::alloc::{AllocError, Global};
use std::{io, str};
use toml::de::Error;
use toml::{Table, Value};

/// The text at a key of a table.
pub(crate) fn text_at<'a>(table: &'a Table, key: &str) -> Option<&'a str> {
    table.get(key)?.as_str()
}

/// The list at a key of a table; empty where there is none.
pub(crate) fn list_at<'a>(table: &'a Table, key: &str) -> &'a [Value] {
    match table.get(key) {
        Some(Value::Array(members)) => members.as_slice(),
        _ => &[],
    }
}

/// Notes the name of the channel or the destination that a fault is in.
fn add_owner(notes: &mut Lines, spot: &Spot<'_>) -> Result<(), AllocError> {
    let Some(owner) = spot.owner else {
        return Ok(());
    };
    let Some(name) = text_at(owner.table, "name") else {
        return Ok(());
    };
    let text = format!(in notes.alloc; "{} is {}", owner.segment, Quoted(name))?;
    notes.add(&text)
}

/// Notes what is wrong where the fault is.
fn add_cause(notes: &mut Lines, name: PlanFaultKind, spot: &Spot<'_>) -> Result<(), AllocError> {
    match name {
        PlanFaultKind::UnknownKey => value_notes::add_unknown_key(notes, spot),
        PlanFaultKind::Missing => value_notes::add_missing(notes, spot),
        PlanFaultKind::BadRange => value_notes::add_bad_range(notes, spot),
        PlanFaultKind::TooMany => value_notes::add_too_many(notes, spot),
        PlanFaultKind::BadPath => path_notes::add_bad_path(notes, spot),
        PlanFaultKind::ForbiddenWrite => path_notes::add_forbidden_write(notes, spot),
        PlanFaultKind::UnknownName => value_notes::add_unknown_name(notes, spot),
        PlanFaultKind::DoubleName => value_notes::add_double_name(notes, spot),
        PlanFaultKind::NotToml | PlanFaultKind::NoMemory => Ok(()),
    }
}

/// Notes where a text stops being a document, and why.
fn add_parse_error(notes: &mut Lines, text: &str, error: &Error) -> Result<(), AllocError> {
    let start = match error.span() {
        Some(span) => span.start,
        None => 0,
    };
    let before = text.as_bytes().get(..start).unwrap_or(&[]);
    let Position { line, column } = Position::behind(before);
    let reason = error.message();
    let text = format!(in notes.alloc; "line {line}, column {column}: {reason}")?;
    notes.add(&text)?;
    if reason == "invalid escape sequence" {
        notes.add(
            "between double quotes a backslash begins an escape; between single quotes it is taken as it is written",
        )?;
    }
    Ok(())
}

/// Notes where bytes stop being UTF-8.
fn add_no_text(notes: &mut Lines, text: &[u8], offset: usize) -> Result<(), AllocError> {
    let (before, behind) = (
        text.get(..offset).unwrap_or(&[]),
        text.get(offset..).unwrap_or(&[]),
    );
    let Position { line, column } = Position::behind(before);
    let byte = behind.first().copied().unwrap_or(0);
    let text = format!(in notes.alloc;
        "line {line}, column {column}: the byte 0x{byte:02X} at offset {offset} is not UTF-8"
    )?;
    notes.add(&text)
}

/// The notes that explain the fault of a plan's text, one line each, in the order in which they are shown.
///
/// # Errors
///
/// Where memory is refused. There are no notes then.
pub fn fault_notes(alloc: Global, text: &[u8], fault: &PlanFault) -> Result<Vec<Line>, AllocError> {
    let mut notes = Lines::new(alloc);
    match str::from_utf8(text) {
        Err(error) => add_no_text(&mut notes, text, error.valid_up_to())?,
        Ok(text) => match toml::table_from_str(alloc, text) {
            Err(error) if error.is_memory() => return Err(AllocError),
            Err(error) => add_parse_error(&mut notes, text, &error)?,
            Ok(document) => {
                let spot = Spot::of(&document, fault);
                add_owner(&mut notes, &spot)?;
                add_cause(&mut notes, fault.name, &spot)?;
            }
        },
    }
    Ok(notes.into_lines())
}

/// A note of one line.
fn one_note(alloc: Global, text: &str) -> Result<Vec<Line>, AllocError> {
    let mut notes = Lines::new(alloc);
    notes.add(text)?;
    Ok(notes.into_lines())
}

/// The note of why the file of a plan can't be read.
///
/// # Errors
///
/// Where memory is refused.
pub fn file_note(alloc: Global, path: &str, reason: &io::Error) -> Result<Vec<Line>, AllocError> {
    one_note(
        alloc,
        &format!(in alloc; "{} can't be read: {reason}", Quoted(path))?,
    )
}

/// The note that a file has more bytes than a plan may have.
///
/// # Errors
///
/// Where memory is refused.
pub fn long_file_note(alloc: Global, path: &str, most: u64) -> Result<Vec<Line>, AllocError> {
    one_note(
        alloc,
        &format!(in alloc; "{} has more than {most} bytes", Quoted(path))?,
    )
}

/// The note of why a channel can't listen at its address.
///
/// # Errors
///
/// Where memory is refused.
pub fn listen_note(
    alloc: Global,
    channel: &Channel,
    reason: &io::Error,
) -> Result<Vec<Line>, AllocError> {
    let (name, listen) = (channel.name(), Quoted(channel.listen()));
    one_note(
        alloc,
        &format!(in alloc; "channel {name} can't listen at {listen}: {reason}")?,
    )
}
