//! An append-only list of records in a transactional store of rows: what a commit answered `Ok` for outlives a crash.
//!
//! Records are numbered without a gap from a first number. A crash leaves whole records alone, in order: those of
//! the last commit, or those of the commit under way.
#![tactic(auto)]

mod columns;
mod crash;
mod open;
mod read;
mod records;

pub use columns::{Columns, StoredRecord, TABLE_SQL};
pub use crash::committed_outlives_a_crash;
pub use open::{OpenError, Opened};
pub use records::EventStore;

/// Each number of a record is below this.
const NUMBERS: u64 = 1 << 62;
