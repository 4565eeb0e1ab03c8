//! Calls on the header of the message, its MSA and its acknowledgment.

use anyhow::{Result, bail};
use call_window::{Window, made, no_memory};
use er7_tree::Message;
use hl7_head::{AckCode, AckPart, Header, Moment, Msa, ack_text};
use play_script::shown;
use std::alloc::{AllocError, Global};

/// That a message is accepted, in enhanced mode.
const ACCEPTED: AckPart = AckPart {
    code: AckCode::CA,
    cause: None,
    enhanced: true,
};

/// Two fields of a header.
fn header_told(alloc: Global, header: &Header) -> Result<String, AllocError> {
    let id = shown(alloc, header.control_id())?;
    let version = shown(alloc, header.version_id())?;
    format!(in alloc; "control id {id}, version {version}")
}

/// The header of the message.
fn header(alloc: Global, window: &Window, message: &Message) -> Result<String> {
    window.begin()?;
    let header = Header::read(message);
    window.end()?;
    match header {
        Ok(header) => Ok(header_told(alloc, &header)?),
        Err(AllocError) => Ok(no_memory(alloc)?),
    }
}

/// The fields of an MSA.
fn msa_told(alloc: Global, msa: &Msa) -> Result<String, AllocError> {
    let code = shown(alloc, &msa.code)?;
    let id = shown(alloc, &msa.control_id)?;
    let text = shown(alloc, &msa.text)?;
    format!(in alloc; "{code} {id} {text}")
}

/// The first MSA of the message.
fn msa(alloc: Global, window: &Window, message: &Message) -> Result<String> {
    window.begin()?;
    let msa = Msa::read(alloc, message);
    window.end()?;
    match msa {
        Ok(Some(msa)) => Ok(msa_told(alloc, &msa)?),
        Ok(None) => Ok(String::from_str(alloc, "none")?),
        Err(AllocError) => Ok(no_memory(alloc)?),
    }
}

/// The acknowledgment that the message was accepted.
fn ack(alloc: Global, window: &Window, message: &Message) -> Result<String> {
    let header = Header::read(message)?;
    let moment = Moment::of_unix(1_700_000_000)?;
    window.begin()?;
    let text = ack_text(alloc, &header, &ACCEPTED, moment, 4, 77);
    window.end()?;
    Ok(made(alloc, text)?)
}

/// The answer to a call.
///
/// # Errors
///
/// Where the words are no such call, standard output can't be written, or memory is refused outside of the
/// call's own requests.
pub(crate) fn answer(
    alloc: Global,
    window: &Window,
    message: &Message,
    name: &str,
) -> Result<String> {
    match name {
        "header" => header(alloc, window, message),
        "msa" => msa(alloc, window, message),
        "ack" => ack(alloc, window, message),
        _ => bail!("{name} is no call"),
    }
}
