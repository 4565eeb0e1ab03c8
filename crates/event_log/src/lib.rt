//! The history: every event that was booked, with its reply.
#![tactic(auto)]

mod answers;
mod deployment;
mod entry;
mod folding;
mod laws;
mod log;
mod opening;
mod refusal;

pub use answers::{attempts_max, committed_by_new, front_answer, interval, told_first};
pub use deployment::{keeps_destination, same_channels};
pub use entry::{DeployedPlan, Entry, Ticket, Told};
pub use fixed_numbers::{DEPLOYMENTS_MAX, EVENTS_MAX, PLACES_MAX, PRUNINGS_MAX};
pub use folding::folding_rules;
pub use laws::{event_rules, history_rules};
pub use log::{Log, slot_owed};
pub use opening::{Remembered, Snapshot};
pub use refusal::{CancelRefusal, DeployRefusal, PruneRefusal, TakeRefusal};
