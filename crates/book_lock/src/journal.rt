//! The reader through which a journal copies the history.

ghost use Rattle.std.specs.Prelude.{◌≡◌, []};
ghost use Rattle.event_log.specs.History.{next_place};

use crate::desks::Desk;
use crate::locked::Sharing;
use std::alloc::AllocError;
use std::marker::Model;

/// The reader of a journal, which copies the entries of the history in order. Contracts see what its seat has seen of the log:
/// that is what the reader has copied. Its seat is that of a desk at which nothing is booked.
#[derive(Drop)]
pub struct JournalReader<A: Sharing> {
    pub(crate) desk: Desk<A>,
    /// The index of the first entry that it has not copied.
    pub(crate) next: usize,
    /// The number of prunings that it has seen.
    pub(crate) prunings: u32,
}

impl<A: Sharing> Model for JournalReader<A> {
    ghost use Rattle.std.specs.Prelude.{◌≡◌};
    ghost use Rattle.book_lock.specs.Shares.{DeskView};
    ghost use Rattle.book_lock.specs.inner.Unread.{IsAtEnd};
    ghost use Rattle.book_lock.specs.inner.Coding.{desk_code};

    ghost Value = { DeskView };

    ghost coded = { desk_code };

    ghost view = { λ s. s.desk };

    ghost invariant = { λ s. IsAtEnd A.opening s.desk.seat.seen s.next s.prunings };
}

/// Why no entries were copied.
#[derive(Clone, Copy, Debug, PartialEq, Eq)]
pub enum CopyRefusal {
    /// Memory for the copies was refused.
    NoMemory,
    /// The history was pruned since the last copy, so entries that were not copied may be gone.
    Pruned,
}

impl From<AllocError> for CopyRefusal {
    ghost use Rattle.std.specs.Prelude.{◌≡◌};
    ghost use Rattle.book_lock.specs.declared.journal.CopyRefusal.TheVariants.{NoMemory};

    ghost from_gives = { λ _ e. e ≡ NoMemory };

    fn from(_: AllocError) -> CopyRefusal {
        CopyRefusal::NoMemory
    }
}

impl<A: Sharing> JournalReader<A> {
    /// The reader at the seat of a new desk. It copies all that is booked since the book was shared: `next` is the index of
    /// the book's next entry at that moment, and `prunings` the number of prunings that were made before.
    pub fn new(desk: Desk<A>, next: usize, prunings: u32) -> JournalReader<A>
        requires seen { desk.seat.seen ≡ [] }
        requires next { next ≡ next_place A.opening }
        requires prunings { prunings ≡ A.opening.opening.prunings }
        ensures { result ≡ desk }
    {
        JournalReader {
            desk,
            next,
            prunings,
        }
    }

    /// The desk whose seat the reader has. It is handed in when the book is closed.
    pub fn into_desk(self) -> Desk<A>
        ensures { result ≡ self }
    {
        self.desk
    }
}
