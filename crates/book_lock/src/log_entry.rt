//! The entries of the log of a shared book.

use book_core::Entry;

/// What was done to a shared book: an event was booked with its reply, the book was pruned, or a journal published how much of
/// it is durable. No value of it is made: contracts see the log, and the engine keeps none.
pub enum LogEntry {
    /// An event with its reply, as the book's history has it.
    Booked(Entry),
    /// The messages numbered below `before` were forgotten, and all entries of the history folded.
    Pruned { before: u32 },
    /// All entries of the history below this index survive a crash. The book is unchanged.
    Durable { below: usize },
}
