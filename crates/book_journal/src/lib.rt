//! The journal of a shared book: what its thread does, a step at a time.
//!
//! A step copies what was booked since the last one, writes a row for each change into a store, commits once, and
//! publishes that all of that is durable.
#![tactic(auto)]

mod encode;
mod fault;
mod figures;
mod held;
mod journal;
mod laws;
mod row;
mod write;

pub use fault::JournalError;
pub use figures::{StoreFigures, StoreReport};
pub use held::{Held, HeldChanges};
pub use journal::{Journal, Journaling};
pub use laws::{crash_rules, journal_rules};
