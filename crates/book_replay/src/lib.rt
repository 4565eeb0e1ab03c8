//! A book is restored from the records of a journal: each event is booked again, in its order.
#![tactic(auto)]

mod fault;
mod flights;
mod laws;
mod redo;
mod run;

pub use event_records::Record;
pub use fault::{ReplayError, ReplayFault};
pub use flights::settle_flights;
pub use laws::replay_rules;
pub use run::replay;
