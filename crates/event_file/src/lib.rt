//! An append-only list of records in a SQLite database file and its log.
//!
//! The file has one table, `event`, with a row for each record. A program holds the file open alone; when it has closed
//! it, `sqlite3` reads it. Each page has a sum of its bytes, by which an open refuses a page that was changed.
#![tactic(auto)]

mod error;
mod file;
mod path;

pub use error::FileError;
pub use file::{Failed, create, open, prepare};
pub use path::{create_at, open_at};

/// The format of the records, which is the user version of the file.
const FORMAT: u32 = 0;

/// The bytes of a page.
const PAGE_SIZE: usize = 4096;
