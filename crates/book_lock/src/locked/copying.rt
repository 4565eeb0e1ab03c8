//! Copies of the history for a journal.

ghost use Rattle.std.specs.Prelude.{◌≡◌, ◌⊎◌, None, Some, IfErr, IfOk, OnErr, OnOk, if◌then◌else◌, nat_lt};
ghost use Rattle.event_log.specs.Folding.{prune_answer, pruned};
ghost use Rattle.book_lock.specs.Journal.{Copies};
ghost use Rattle.book_lock.specs.Log.{IsPruned};
ghost use Rattle.book_lock.specs.inner.Rises.{with_book};

use crate::copied::Copied;
use crate::journal::{CopyRefusal, JournalReader};
use crate::locked::{Locked, Sharing};
use crate::unread::{Position, UnreadChanges, add_unread, is_complete, unread_from};
use book_core::{BookRows, PRUNINGS_MAX, PruneRefusal};
use std::alloc::{AllocError, Global};

impl<A: Sharing, S: BookRows> Locked<A, S> {
    /// Copies of all changes that the reader has not copied, in order. From the first call on, what `prune_settled` folds is
    /// kept for the reader.
    ///
    /// # Errors
    ///
    /// `Pruned` where entries were folded that are not kept for the reader, and `NoMemory` where memory is refused. The reader
    /// is unchanged.
    pub fn copy_entries(
        &mut self,
        alloc: Global,
        reader: &mut JournalReader<A>,
    ) -> Result<Vec<Copied>, CopyRefusal>
        ensures copies { IfOk result (λ copies. Copies A.opening reader.old.seat reader.new.seat copies.items) }
        ensures err { OnErr result (reader.new ≡ reader.old) }
        ensures made { reader.new.made ≡ reader.old.made }
        ensures same { self.new ≡ self.old }
    {
        reader.desk.audit(&mut self.log);
        let at = Position {
            next: reader.next,
            prunings: reader.prunings,
        };
        let kept = self.unread.take();
        let mut unread = unread_from(alloc, kept, at);
        let added = add_unread(&mut unread, &self.book);
        if !is_complete(&added, &unread, &self.book) {
            self.unread = Some(unread);
            return Err(refusal_of(&added));
        }
        let UnreadChanges { copies, to, .. } = unread;
        reader.desk.observe(&mut self.log);
        reader.next = to.next;
        reader.prunings = to.prunings;
        let anew = unread_from(alloc, None, to);
        self.unread = Some(anew);
        Ok(copies)
    }

    /// Adds copies of the entries that the reader of a journal has not taken to those that are kept for it, where it has
    /// copied before.
    ///
    /// # Errors
    ///
    /// Where memory is refused. What is kept is unchanged.
    fn keep_unread(&mut self) -> Result<(), AllocError>
        ensures { self.new ≡ self.old }
    {
        let Some(mut unread) = self.unread.take() else {
            return Ok(());
        };
        let added = add_unread(&mut unread, &self.book);
        self.unread = Some(unread);
        added
    }

    /// Prunes as `prune` does, once what the reader of a journal has not taken is kept for it.
    ///
    /// # Errors
    ///
    /// The book's, in its order, where the memory for these copies counts as the book's.
    pub(crate) fn prune_keeping(&mut self, before: u32) -> Result<(), PruneRefusal>
        requires { prune_answer self.old.book before
            ≡ (if nat_lt self.old.book.opening.prunings 1000 then None else Some PruneRefusal.TooMany) }
        ensures answer { OnOk result (prune_answer self.old.book before ≡ None) }
        ensures folded { OnOk result (self.new ≡ with_book self.old (pruned before self.old.book)) }
        ensures refused { IfErr result (λ e.
            (prune_answer self.old.book before ≡ Some e)
            ⊎ (prune_answer self.old.book before ≡ None) × (e ≡ PruneRefusal.NoMemory)) }
        ensures call { IsPruned A.opening before result }
        ensures err { OnErr result (self.new ≡ self.old) }
    {
        if self.book.prunings() >= PRUNINGS_MAX {
            return self.prune(before);
        }
        self.book_is_logged();
        self.keep_unread()?;
        self.prune(before)
    }
}

/// Why nothing is copied: memory was refused, or entries were folded.
fn refusal_of(added: &Result<(), AllocError>) -> CopyRefusal {
    match added {
        Ok(()) => CopyRefusal::Pruned,
        Err(_) => CopyRefusal::NoMemory,
    }
}
