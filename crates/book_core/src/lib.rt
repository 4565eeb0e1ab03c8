//! The book: the history of all events, and what is kept beside it so that no answer has to read it again.
#![tactic(auto)]

mod arrival;
mod book;
mod dispatch;
mod event_counts;
mod laws;
mod letter;
mod pruning;
mod questions;
mod receipt;

pub use book::Book;
pub use event_log::{
    CancelRefusal, DEPLOYMENTS_MAX, DeployRefusal, DeployedPlan, EVENTS_MAX, Entry, PRUNINGS_MAX,
    PruneRefusal, TakeRefusal, Ticket, Told,
};
pub use laws::three_sums;
pub use letter::{BookRows, Job, Outbound};
pub use questions::{Failure, Front, is_tight};
pub use receipt::{NotBooked, Receipt};
