//! Copies of changes that are kept for a journal until its reader takes them.

ghost use Rattle.std.specs.Prelude.{◌≡◌, IfSome, IsTrue};
ghost use Rattle.event_log.specs.History.{next_place};
ghost use Rattle.book_lock.specs.inner.Unread.{BeginsAt, HasAdded, HasPruning};

use crate::copied::{Copied, copies_since};
use book_core::{Book, BookRows};
use std::alloc::{AllocError, Global};

/// A position in the history of a book.
#[derive(Clone, Copy)]
pub struct Position {
    /// The index of the next entry.
    pub next: usize,
    /// The number of prunings that were made before.
    pub prunings: u32,
}

/// Copies of the changes between two positions of the history, in order, which the reader of a journal has not taken.
#[derive(Drop)]
pub struct UnreadChanges {
    /// The position of the reader.
    pub from: Position,
    /// The position behind the last copy.
    pub to: Position,
    /// The copies.
    pub copies: Vec<Copied>,
    /// Where their memory is from.
    pub alloc: Global,
}

/// The copies that are kept for a reader at this position, or no copies from there on.
pub fn unread_from(alloc: Global, kept: Option<UnreadChanges>, at: Position) -> UnreadChanges
    ensures { BeginsAt at kept result }
{
    if let Some(unread) = kept {
        if unread.from.next == at.next && unread.from.prunings == at.prunings {
            return unread;
        }
    }
    UnreadChanges {
        from: at,
        to: at,
        copies: Vec::new(alloc),
        alloc,
    }
}

/// Adds copies of the entries of the book behind them, where no pruning was made since.
///
/// # Errors
///
/// Where memory is refused. The copies are unchanged.
pub fn add_unread<S: BookRows>(unread: &mut UnreadChanges, book: &Book<S>) -> Result<(), AllocError>
    ensures { HasAdded book.now unread.old unread.new }
{
    if unread.to.prunings != book.prunings() || unread.to.next < book.first_place() {
        return Ok(());
    }
    let mut more = copies_since(unread.alloc, book, unread.to.next)?;
    unread.copies.append(&mut more)?;
    unread.to.next = book.len();
    Ok(())
}

/// Whether copies were added, and go to the end of the book's history.
pub fn is_complete<S: BookRows>(
    added: &Result<(), AllocError>,
    unread: &UnreadChanges,
    book: &Book<S>,
) -> bool
    ensures next { IsTrue result → unread.now.to.next ≡ next_place book.now }
    ensures prunings { IsTrue result → unread.now.to.prunings ≡ book.now.opening.prunings }
{
    added.is_ok() && unread.to.next == book.len() && unread.to.prunings == book.prunings()
}

/// The copies that are kept, with the pruning before number `before` behind them, which was made at position `at` and left
/// `prunings` prunings. None where they end before that position, or memory is refused.
pub fn with_pruning(
    kept: Option<UnreadChanges>,
    at: Position,
    before: u32,
    prunings: u32,
) -> Option<UnreadChanges>
    ensures { IfSome result (HasPruning at before prunings kept) }
{
    let mut unread = kept?;
    if unread.to.next != at.next || unread.to.prunings != at.prunings {
        return None;
    }
    unread.copies.push(Copied::Prune { before }).ok()?;
    unread.to.prunings = prunings;
    Some(unread)
}
