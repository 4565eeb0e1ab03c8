//! The encoding of a book's events: what a journal keeps of each, so that it can be replayed.
//!
//! All kinds of record have one layout: a kind, a part, three numbers of four bytes, a moment of eight, and a text behind its
//! length. A record has one encoding: where a field that its kind doesn't use isn't 0, the bytes are no record. The version of
//! the format belongs to the file that holds the records, and not to the record.
#![tactic(auto)]

mod fault;
mod head;
mod laws;
mod reading;
mod record;
mod writing;

pub use fault::{ReadError, RecordFault};
pub use head::Head;
pub use laws::record_rules;
pub use reading::{read_batch, read_record, text_at, told_of, u32_at, u64_at};
pub use record::Record;
pub use writing::{put_record, told_parts, write_batch};
