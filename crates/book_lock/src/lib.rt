//! The book under one lock, the log of all that is done to it, the shares of its callers, and the audit of their
//! receipts.
#![tactic(auto)]

mod arrival;
mod copied;
mod crowding;
mod desks;
mod durable;
mod journal;
mod locked;
mod log_entry;
mod message;
mod receipt_audit;
mod shared;
mod status;
mod sums;
mod tidying;
mod unread;
mod windows;

pub use copied::Copied;
pub use crowding::{Crowded, Load, owed_by_queue};
pub use desks::{Desk, Station};
pub use durable::{DurableStore, NotDurable, TakeDurableRefusal};
pub use journal::{CopyRefusal, JournalReader};
pub use locked::{Closed, Locked, Sharing, add_up};
pub use log_entry::LogEntry;
pub use message::{Found, Message};
pub use receipt_audit::{AuditFault, audit, rising};
pub use shared::{NotClosed, Opened, Shared};
pub use status::{Gauge, Status};
pub use tidying::{Tidied, Tidying};
