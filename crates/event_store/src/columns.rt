//! What a row says of its record, beside the record itself.
use std::alloc::Global;

/// The table of the records: the number of a record, the record, and the columns of [`Columns`].
pub const TABLE_SQL: &str =
    "CREATE TABLE event(id INTEGER PRIMARY KEY, body BLOB, at INTEGER, peer TEXT, kind TEXT, channel TEXT, number INTEGER, control_id TEXT, destination TEXT, outcome TEXT)";

/// What the columns beside a record say. They are for a person who reads the file with `sqlite3`; an open reads
/// `at` and `peer` alone. A text is empty, and a number is 0, where the record has nothing to say in that column.
#[derive(Clone, Copy, Debug)]
pub struct Columns<'a> {
    /// When the record was copied, in milliseconds since 1970-01-01 00:00:00 UTC.
    pub at: i64,
    /// The address of the peer.
    pub peer: &'a str,
    /// What kind of event the record is of.
    pub kind: &'a str,
    /// The name of the channel.
    pub channel: &'a str,
    /// The number of the message.
    pub number: i64,
    /// The control id of the message (MSH-10).
    pub control_id: &'a [u8],
    /// The name of the destination.
    pub destination: &'a str,
    /// What became of the message there.
    pub outcome: &'a str,
}

/// A record as an open reads it.
#[derive(Debug, Drop)]
pub struct StoredRecord {
    /// The record: the bytes that were appended.
    pub body: Vec<u8>,
    /// When it was copied, in milliseconds since 1970-01-01 00:00:00 UTC.
    pub at: i64,
    /// The address of the peer; empty where the record has none.
    pub peer: Vec<u8>,
}
