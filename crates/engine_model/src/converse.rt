//! The steps by which a history comes.

ghost use Rattle.std.specs.Prelude.{◌≡◌, ◌≤◌, List, ℕ, IfOk, map};
ghost use Rattle.engine_model.specs.Converse.{IsRunOf};
ghost use Rattle.engine_model.specs.inner.Converse.{CameInBlock, KeepsTo, step_of, steps_of};
ghost use Rattle.engine_model.specs.inner.View.{turn_by};

use crate::step::Step;
use book_core::{Book, BookRows, Entry};
use hl7_head::Moment;
use mllp_frame::write_block;
use std::alloc::{AllocError, Global};
use std::sync::Arc;

/// The step of an entry: an arrival comes as one whole block, at the first moment.
fn step_of(alloc: Global, entry: &Entry, first: Moment) -> Result<Step, AllocError>
    requires framed { CameInBlock entry.now }
    requires first { first ≡ 0 }
    ensures { IfOk result (λ step. turn_by step ≡ step_of entry.now) }
{
    match entry {
        Entry::Arrival { conn, raw, .. } => {
            let mut bytes = Vec::new(alloc);
            write_block(raw.as_slice(), &mut bytes)?;
            Ok(Step::Chunk {
                conn: *conn,
                bytes,
                now: first,
            })
        }
        Entry::Take { ticket, now } => Ok(Step::Take {
            d: ticket.destination,
            now: *now,
        }),
        Entry::Settle {
            ticket,
            outcome,
            now,
            ..
        } => Ok(Step::Settle {
            ticket: *ticket,
            outcome: *outcome,
            now: *now,
        }),
        Entry::Cancel {
            number,
            among: u32::MAX,
            ..
        } => Ok(Step::Cancel { number: *number }),
        Entry::Cancel { number, among, .. } => Ok(Step::CancelAmong {
            number: *number,
            among: *among,
        }),
        Entry::Deploy { plan } => Ok(Step::Deploy {
            plan: Arc::try_clone(plan.plan())?,
        }),
    }
}

/// The steps that lead to the history of a book, one an entry that it holds: a run of them, from the book's opening on, has
/// this history, if each connection keeps to the channel that it has there.
///
/// # Errors
///
/// Where memory is refused, or a plan has more owners than can be counted.
pub fn steps_of<S: BookRows>(alloc: Global, book: &Book<S>) -> Result<Vec<Step>, AllocError>
    ensures steps { IfOk result (λ steps. map turn_by steps.items ≡ steps_of book.now) }
    ensures reached { IfOk result (λ steps. (channels : List ℕ) → KeepsTo channels book.now.entries →
        IsRunOf (map turn_by steps.items) book.now channels) }
{
    book.rules();
    let Ok(first) = Moment::of_unix(0) else {
        unreachable!();
    };
    let first_place = book.first_place();
    let held = book.len() - first_place;
    let mut steps = Vec::with_capacity(alloc, held)?;
    for place in 0..held {
        let Some(entry) = book.entry(first_place + place) else {
            unreachable!();
        };
        steps.push_reserved(step_of(alloc, entry, first)?);
    }
    Ok(steps)
}
