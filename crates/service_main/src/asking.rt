//! `store`: questions about the store of a service that isn't running.

use engine_report::{Ended, Fault, Trouble};
use service_store::{StartError, StoppedBook, read_stopped};
use service_workers::ServiceRows;
use std::alloc::{AllocError, Global};
use store_questions::{AskError, ask};

/// Why the store isn't read, as the program reports it.
fn trouble_of<'f>(alloc: Global, error: &StartError<'_>) -> Result<Trouble<'f>, AllocError> {
    Ok(Trouble::Store {
        line: format!(in alloc; "{error}")?,
        status: error.fault.status(),
    })
}

/// The book of the store in a folder.
fn read<'a>(rt: &HostRuntime, folder: &str) -> Result<StoppedBook<ServiceRows>, Trouble<'a>> {
    match read_stopped::<ServiceRows>(rt, folder) {
        Ok(stopped) => Ok(stopped),
        Err(error) => Err(trouble_of(rt.alloc(), &error)?),
    }
}

/// Answers the questions on standard input about the store in a folder, which no service uses. Nothing is changed.
///
/// # Errors
///
/// Why the store isn't read; the fault of standard input, of standard output, or of memory.
pub(crate) fn ask_store<'a>(rt: &HostRuntime, folder: &str) -> Result<Ended, Trouble<'a>> {
    let stopped = read(rt, folder)?;
    match ask(rt.alloc(), &stopped, &mut rt.stdin(), &mut rt.stdout()) {
        Ok(()) => Ok(Ended::Done),
        Err(AskError::NoMemory) => Err(Trouble::Engine(Fault::Memory)),
        Err(AskError::Read(_)) => Err(Trouble::Engine(Fault::Read)),
        Err(AskError::Write(_)) => Err(Trouble::Engine(Fault::Write)),
    }
}
