//! What a process says to its service manager.

use std::alloc::{AllocError, Global};

/// What a process says to its service manager of itself.
#[derive(Clone, Copy, Debug, PartialEq, Eq)]
pub enum Notice<'a> {
    /// Its start is over: it does what it is for.
    Ready,
    /// It takes a new configuration into use. `Ready` follows once that is done.
    Reloading,
    /// It ends.
    Stopping,
    /// It works.
    Watchdog,
    /// How it is, in one line.
    Status(&'a str),
}

/// The lines of a datagram that says these notices: a variable of sd_notify(3) and its value each.
///
/// # Errors
///
/// Where memory is refused.
pub fn write_notices(alloc: Global, notices: &[Notice<'_>]) -> Result<String, AllocError> {
    let mut text = String::new(alloc);
    for notice in notices {
        match *notice {
            Notice::Ready => text.push_str("READY=1\n")?,
            Notice::Reloading => text.push_str("RELOADING=1\n")?,
            Notice::Stopping => text.push_str("STOPPING=1\n")?,
            Notice::Watchdog => text.push_str("WATCHDOG=1\n")?,
            Notice::Status(line) => {
                text.push_str("STATUS=")?;
                text.push_str(line)?;
                text.push_str("\n")?;
            }
        }
    }
    Ok(text)
}
