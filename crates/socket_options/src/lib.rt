//! Options of TCP sockets, and ends of connections, that the standard streams have no method for. All `unsafe` calls of the C library
//! for them are in this crate.
#![tactic(auto)]

mod aborting;
mod broken;
mod probing;
mod spare;

pub use aborting::reset;
pub use broken::is_broken;
pub use probing::keep_alive;
pub use spare::Spare;
