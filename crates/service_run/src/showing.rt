//! The commands that give an operator the text of a message. It goes to the answer, or to the file that the command names, and
//! never to the log.

use crate::questions::no_destination_text;
use crate::settings::Settings;
use book_lock::{Found, Sharing};
use log::{Log, info};
use log_text::{ControlId, Escaped};
use plan_text::Plan;
use service_answers::{
    contents_text, control_id_of, elsewhere_text, exported_text, message_text, no_file_text,
};
use service_commands::Refused;
use service_web::destination_named;
use service_workers::{Crew, Site};
use std::alloc::{AllocError, Global};
use std::fs::OpenOptions;
use std::io::{ErrorKind, Write};
use std::os::unix::fs::OpenOptionsExt;
use std::{fs, io, str};

/// Only its owner may read and write a file with a message.
const FILE_MODE: u32 = 0o600;

/// Why no text of a message is given.
const OFF: &str = "the service was started with --show off";

/// What is said where no text of a message is given.
fn off_text(alloc: Global) -> Result<String, AllocError> {
    format!(in alloc; "{}", Refused(OFF))
}

/// What is said of a message whose text is not kept.
fn missing_text<A: Sharing, H: Crew>(
    site: &Site<'_, A, H>,
    found: &Found,
) -> Result<String, AllocError> {
    message_text(site.alloc, &*site.shared.plan(site.rt)?, found, &None)
}

/// The text of a message that is kept, as it was received. What is shown is logged.
fn shown_text<A: Sharing, H: Crew>(
    site: &Site<'_, A, H>,
    number: u32,
    found: &Found,
    raw: &[u8],
) -> Result<String, AllocError> {
    let id = control_id_of(site.alloc, found)?;
    let text = contents_text(site.alloc, raw)?;
    info!(site.rt; target: "always", message = number, control_id:% = ControlId(&id); "message shown");
    Ok(text)
}

/// The text of a message, as it was received. What is shown of which message is logged.
///
/// # Errors
///
/// Where memory is refused, or the plan has more owners than can be counted.
pub(crate) fn ask_show<A: Sharing, H: Crew>(
    site: &Site<'_, A, H>,
    settings: &Settings,
    number: u32,
) -> Result<String, AllocError> {
    if !settings.show {
        return off_text(site.alloc);
    }
    let found = site.shared.message(site.rt, number)?;
    match &found {
        Found::Kept(message) => shown_text(site, number, &found, message.raw.as_slice()),
        _ => missing_text(site, &found),
    }
}

/// The text of a message for the destination of a name. What is shown is logged.
fn sent_text<A: Sharing, H: Crew>(
    site: &Site<'_, A, H>,
    number: u32,
    found: &Found,
    sent: &[u8],
    destination: &str,
) -> Result<String, AllocError> {
    let id = control_id_of(site.alloc, found)?;
    let text = contents_text(site.alloc, sent)?;
    info!(site.rt; target: "always", message = number, control_id:% = ControlId(&id), destination; "message shown");
    Ok(text)
}

/// The text of a message for a destination and its name.
fn show_at<A: Sharing, H: Crew>(
    site: &Site<'_, A, H>,
    plan: &Plan,
    number: u32,
    index: u32,
    name: &str,
) -> Result<String, AllocError> {
    let found = site.shared.message(site.rt, number)?;
    if !matches!(found, Found::Kept(_)) {
        return message_text(site.alloc, plan, &found, &None);
    }
    match site.shared.text_for(site.rt, number, index)? {
        Some(sent) => sent_text(site, number, &found, sent.as_slice(), name),
        None => elsewhere_text(site.alloc, number, name),
    }
}

/// The text of a message for the destination of a name, as the steps of its route left it: it is or was sent so. What is shown of which
/// message is logged.
///
/// # Errors
///
/// Where memory is refused, or the plan or a text has more owners than can be counted.
pub(crate) fn ask_show_at<A: Sharing, H: Crew>(
    site: &Site<'_, A, H>,
    settings: &Settings,
    number: u32,
    name: &[u8],
) -> Result<String, AllocError> {
    if !settings.show {
        return off_text(site.alloc);
    }
    let plan = site.shared.plan(site.rt)?;
    match destination_named(&plan, name) {
        // The names of a plan are text.
        Some(index) => show_at(
            site,
            &plan,
            number,
            index,
            str::from_utf8(name).unwrap_or(""),
        ),
        None => no_destination_text(site.alloc),
    }
}

/// Writes bytes to a new file, which only its owner may read. Where something is at the path already nothing is written, and where
/// the bytes can't be written no file is left.
fn write_new(rt: &HostRuntime, path: &str, bytes: &[u8]) -> io::Result<()> {
    let mut file = OpenOptions::new()
        .write(true)
        .create_new(true)
        .mode(FILE_MODE)
        .open(rt, path)?;
    let written = file.write_all(bytes).and_then(|()| file.flush());
    if written.is_err() {
        let _ = fs::remove_file(rt, path);
    }
    written
}

/// Writes the bytes of a message that is kept to a new file. What is written is logged.
fn export<A: Sharing, H: Crew>(
    rt: &HostRuntime,
    site: &Site<'_, A, H>,
    number: u32,
    found: &Found,
    raw: &[u8],
    path: &str,
) -> Result<String, AllocError> {
    let id = control_id_of(site.alloc, found)?;
    match write_new(rt, path, raw) {
        Ok(()) => {
            info!(site.rt; target: "always", message = number, control_id:% = ControlId(&id), path:% = Escaped(path); "message exported");
            exported_text(site.alloc, raw.len(), path)
        }
        Err(error) if error.kind() == ErrorKind::OutOfMemory => Err(AllocError),
        Err(error) => no_file_text(site.alloc, path, &error),
    }
}

/// Writes the bytes of a message, as they were received, to a new file. What is written of which message is logged.
///
/// # Errors
///
/// Where memory is refused, or the plan has more owners than can be counted.
pub(crate) fn do_export<A: Sharing, H: Crew>(
    rt: &HostRuntime,
    site: &Site<'_, A, H>,
    settings: &Settings,
    number: u32,
    path: &str,
) -> Result<String, AllocError> {
    if !settings.show {
        return off_text(site.alloc);
    }
    let found = site.shared.message(site.rt, number)?;
    match &found {
        Found::Kept(message) => export(rt, site, number, &found, message.raw.as_slice(), path),
        _ => missing_text(site, &found),
    }
}
