//! The measured prunings.

use crate::calls::book_and_cancel;
use crate::message::{Rows, nanoseconds_since};
use crate::words::Request;
use book_core::Book;
use std::time::Instant;

/// Forgets the messages below a number, and returns how long that took.
fn folded(rt: &HostRuntime, book: &mut Book<Rows>, before: u32) -> Option<u64> {
    let began = Instant::now(rt).ok();
    let pruned = book.prune(before);
    let took = nanoseconds_since(rt, began);
    pruned.ok().and(took)
}

/// Fills a book with messages that are cancelled and forgets them, but for the last ones, as often as requested.
/// Returns the nanoseconds of the longest pruning.
pub(crate) fn time_foldings(
    rt: &HostRuntime,
    book: &mut Book<Rows>,
    asked: Request,
) -> Option<u64> {
    let mut longest = 0_u64;
    for round in 0..asked.times {
        let first = round.saturating_mul(asked.count);
        book_and_cancel(rt, book, first..first.saturating_add(asked.count))?;
        let before = book.message_count().saturating_sub(asked.kept);
        longest = longest.max(folded(rt, book, before)?);
    }
    Some(longest)
}
