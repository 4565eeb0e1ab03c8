//! A log that many add to, each through a seat with a number of its own. It exists in the proofs alone.
//!
//! Whoever holds the [`GhostLog`] issues the [`Seat`]s and adds entries for them. Each seat has seen a prefix of the log,
//! in which all entries of its own number are. Seats that are handed in together have different numbers, as a [`Roll`]
//! shows. The log has nothing to read at run time: contracts alone see it.
#![tactic(auto)]

mod log;
mod roll;
mod rule;
mod steps;

pub use log::{GhostLog, Seat};
pub use roll::Roll;
pub use rule::{BlankLog, Entries, LogRule, Naming, PassView};
