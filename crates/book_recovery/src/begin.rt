//! A new file, and the book that goes with it.

ghost use Rattle.std.specs.Prelude.{◌≡◌, ◌≤◌, [], ◌∷◌, IfOk, length};
ghost use Rattle.std.specs.Arc.{arc_value};
ghost use Rattle.event_log.specs.inner.History.{snapshot_after};
ghost use Rattle.book_recovery.specs.inner.File.{IsRecovered};

use crate::header::{Header, VERSION_MAX, write_header};
use book_core::{Book, BookRows};
use plan_text::Plan;
use std::alloc::{AllocError, Global};
use std::hash::RandomState;
use std::sync::Arc;

/// The first record of a new file, and its book.
#[derive(Drop)]
pub struct NewFile<S: BookRows> {
    /// The encoding of the header.
    pub header: Vec<u8>,
    /// The book, which is empty.
    pub book: Book<S>,
}

/// An empty book that may hold `events_max` entries, and the header of a new file for it. The keys of the book are hashed by
/// `hasher`.
///
/// # Errors
///
/// Where memory is refused.
pub fn begin_file<S: BookRows>(
    alloc: Global,
    plan: Arc<Plan>,
    events_max: u32,
    version: &str,
    hasher: RandomState,
) -> Result<NewFile<S>, AllocError>
    requires some { 1 ≤ events_max }
    requires few { events_max ≤ 1000000 }
    requires version { length version.now ≤ VERSION_MAX }
    ensures book { IfOk result (λ file. file.book ≡ snapshot_after (arc_value plan) events_max) }

    // The book of the file that has just this record is this book.
    ensures recovered { IfOk result (λ file. IsRecovered (file.header.items ∷ []) file.book) }
{
    let header = Header {
        events_max,
        version,
        document: plan.document(),
    };
    let header = write_header(alloc, &header)?;
    let book = Book::new(alloc, plan, events_max, hasher);
    Ok(NewFile { header, book })
}
