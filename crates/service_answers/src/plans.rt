//! The results of a deployment, as texts.

use event_log::DeployRefusal;
use log_text::Escaped;
use plan_text::{Plan, PlanFault};
use service_commands::Refused;
use std::alloc::{AllocError, Global};
use std::io;

/// Begins the answer to a plan that is deployed.
///
/// # Errors
///
/// Where memory is refused.
pub fn deployed_text(alloc: Global) -> Result<String, AllocError> {
    format!(in alloc; "deployed\n")
}

/// Adds that a channel listens on where it did, whatever a new plan says.
///
/// # Errors
///
/// Where memory is refused.
pub fn add_listener(text: &mut String, name: &str, listen: &str) -> Result<(), AllocError> {
    writeln!(text, "channel {name} still listens at {listen}")
}

/// The answer to a plan that the book refuses, where `before` is the plan in force: a destination that is in use is named.
///
/// # Errors
///
/// Where memory is refused.
pub fn refused_plan_text(
    alloc: Global,
    before: &Plan,
    refusal: DeployRefusal,
) -> Result<String, AllocError> {
    if let DeployRefusal::DestinationInUse(index) = refusal
        && let Some(destination) = before.destination(index)
    {
        let name = destination.name();
        return format!(in alloc;
            "refused: messages wait for {name}, so its place, name and attempts have to stay\n\n"
        );
    }
    format!(in alloc; "{}", Refused(refusal))
}

/// The answer to a file that can't be read.
///
/// # Errors
///
/// Where memory is refused.
pub fn no_file_text(alloc: Global, path: &str, error: &io::Error) -> Result<String, AllocError> {
    let path = Escaped(path);
    format!(in alloc; "refused: file {path}: {error}\n\n")
}

/// The answer to a path of what is no regular file, as a folder, a FIFO or a device: a read of it may have no end.
///
/// # Errors
///
/// Where memory is refused.
pub fn no_regular_file_text(alloc: Global, path: &str) -> Result<String, AllocError> {
    let path = Escaped(path);
    format!(in alloc; "refused: file {path}: it is no regular file\n\n")
}

/// The answer to a file with more bytes than a plan may have.
///
/// # Errors
///
/// Where memory is refused.
pub fn long_file_text(alloc: Global, path: &str, most: u64) -> Result<String, AllocError> {
    let path = Escaped(path);
    format!(in alloc; "refused: file {path}: it has more than {most} bytes\n\n")
}

/// Begins the answer to a plan with a fault.
///
/// # Errors
///
/// Where memory is refused.
pub fn bad_plan_text(alloc: Global, fault: &PlanFault) -> Result<String, AllocError> {
    format!(in alloc; "refused: {fault}\n")
}
