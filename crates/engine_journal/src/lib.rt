//! The log of a running engine: one line a record, with UTC time and level, escaped, and without repetitions.
//!
//! [`Journal`] is the runtime that a running engine works by. It passes on what the system's runtime can do, and writes
//! each record of the `log` crate to standard error. A line has the time, the level, a fixed text and then fields, as
//!
//! ```text
//! 2026-11-26T10:12:38Z WARN message refused: UnsupportedType channel=ADT connection=3 control_id=MSG00001
//! ```
#![tactic(auto)]

mod forward;
mod journal;
mod outbox;
mod repeats;
mod text;

pub use journal::Journal;
pub use outbox::{LINES_MAX, Next, Outbox, Rank};
pub use repeats::{KINDS_MAX, QUIET_SECONDS, Repeats};
pub use text::{Line, Part};
