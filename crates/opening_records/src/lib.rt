//! The encoding of an opening: what a book starts with, or goes on from, as the bytes of a store's record.
//!
//! An opening is a format number, its numbers, the document of its plan, the counters of what was forgotten, and the arrivals
//! that are remembered. A text for a destination that is the one received is written as a flag alone. An opening has one
//! encoding for each document of its plan, and bytes are those of one opening at most.
#![tactic(auto)]

mod checks;
mod fault;
mod head;
mod laws;
mod parts;
mod reading;
mod writing;

pub use fault::{OpeningFault, Reason};
pub use head::Head;
pub use laws::opening_rules;
pub use reading::read_opening;
pub use writing::put_opening;
