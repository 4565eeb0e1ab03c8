//! What an arrival does about a tight book.

ghost use Rattle.std.specs.Prelude.{◌≡◌, ◌↔◌, IsTrue};
ghost use Rattle.book_lock.specs.inner.Tidies.{tidying_of};

use book_core::{NotBooked, PruneRefusal, Receipt};

/// What an arrival did about a tight book before it was booked.
#[derive(Clone, Copy, Debug, PartialEq, Eq)]
pub enum Tidying {
    /// The book was not tight, and nothing was done.
    NotTight,
    /// All entries were folded and the messages numbered below `before` forgotten.
    Pruned { before: u32 },
    /// It was to be pruned, which was refused: it is as it was.
    Refused(PruneRefusal),
}

impl Tidying {
    /// Whether nothing was done.
    pub fn is_nothing(self) -> bool
        ensures { IsTrue result ↔ (self ≡ Tidying.NotTight) }
    {
        matches!(self, Tidying::NotTight)
    }

    /// The outcome of a pruning.
    pub fn of(answer: Result<u32, PruneRefusal>) -> Tidying
        ensures { result ≡ tidying_of answer }
    {
        match answer {
            Ok(before) => Tidying::Pruned { before },
            Err(refusal) => Tidying::Refused(refusal),
        }
    }
}

/// The answer to an arrival, what it repeats where there is no room for it, and what was done about a tight book before it.
#[derive(Drop)]
pub struct Tidied {
    /// The receipt, or why it was not booked.
    pub receipt: Result<Receipt, NotBooked>,
    /// The index of the arrival that it repeats, where it was refused since the book is full: the book has its key with these
    /// bytes. It is not booked again.
    pub repeats: Option<u32>,
    /// What was done about a tight book before.
    pub tidying: Tidying,
}
