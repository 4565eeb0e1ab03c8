//! The destinations that an operator holds.

use std::alloc::{AllocError, Global};

/// The answer to a destination that is held from now on.
///
/// # Errors
///
/// Where memory is refused.
pub fn held_text(alloc: Global, name: &str) -> Result<String, AllocError> {
    format!(in alloc; "held {name}\n\n")
}

/// The answer to holding a destination that is held already.
///
/// # Errors
///
/// Where memory is refused.
pub fn held_already_text(alloc: Global, name: &str) -> Result<String, AllocError> {
    format!(in alloc; "{name} is held already\n\n")
}

/// The answer to a destination that is not held any more. Where the service is stopping, it says that this may be too late.
///
/// # Errors
///
/// Where memory is refused.
pub fn released_text(alloc: Global, name: &str, is_stopping: bool) -> Result<String, AllocError> {
    let mut text = format!(in alloc; "released {name}\n")?;
    if is_stopping {
        writeln!(
            text,
            "the service is stopping: what waits there may be left undelivered"
        )?;
    }
    writeln!(text, "")?;
    Ok(text)
}

/// The answer to releasing a destination that is not held.
///
/// # Errors
///
/// Where memory is refused.
pub fn not_held_text(alloc: Global, name: &str) -> Result<String, AllocError> {
    format!(in alloc; "{name} is not held\n\n")
}

/// Adds that a destination is held, to an answer.
///
/// # Errors
///
/// Where memory is refused.
pub(crate) fn add_held(text: &mut String, name: &str) -> Result<(), AllocError> {
    writeln!(text, "held {name}")
}

/// Adds that a name is held that the plan has no destination of, to the answer to a plan that is deployed.
///
/// # Errors
///
/// Where memory is refused.
pub fn add_held_without(text: &mut String, name: &str) -> Result<(), AllocError> {
    writeln!(
        text,
        "held {name}, which the plan doesn't have: a destination of that name will be held until 'release {name}'"
    )
}
