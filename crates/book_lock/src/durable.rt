//! Stores that survive a crash, and the refusals of what is not durable.

use book_core::TakeRefusal;

/// A store whose committed records survive a crash.
pub trait DurableStore {
    ghost use Rattle.std.specs.Prelude.{◌≡◌, List};
    ghost use Rattle.book_lock.specs.declared.log_entry.LogEntry.{LogEntry};

    /// The changes whose records a crash would leave now, in order: their commit returned Ok, and nothing was written since.
    ghost holds: { Self → List LogEntry → Type 0 };

    /// Called once what the store holds was published. It does nothing unless a store overrides it.
    fn published(&self) {}

    /// The store holds just one list of changes.
    ghost exact: { (x : Self) (es fs : List LogEntry) → holds x es → holds x fs → es ≡ fs };
}

/// What was booked may not survive a crash, since the journal has failed: nothing of it may be acknowledged.
#[derive(Clone, Copy, Debug, PartialEq, Eq)]
pub struct NotDurable;

/// Why the first message of a queue was not taken.
#[derive(Clone, Copy, Debug, PartialEq, Eq)]
pub enum TakeDurableRefusal {
    /// The entry of its arrival may not survive a crash.
    NotDurable,
    /// The refusal of the book.
    Refused(TakeRefusal),
}
